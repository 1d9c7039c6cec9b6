ghost use Rattle.std.specs.Prelude.{◌≡◌};
ghost use Rattle.fd_api.specs.Questions.{query_of};

use crate::route::{Listing, Summing};
use fd_kinds::{Query, Selector, Window};

/// A query before its window is known.
#[derive(Drop)]
pub enum Question {
    Types,
    List(Listing, Option<Selector>),
    Sum(Summing, Selector),
}

fn list_query(listing: Listing, filter: Option<Selector>, window: Window) -> Query
    ensures { result ≡ query_of (Question.List listing filter) window }
{
    match listing {
        Listing::LabelNames => Query::LabelNames { filter, window },
        Listing::Values(name) => Query::Values {
            name,
            filter,
            window,
        },
        Listing::Series => Query::Series { filter, window },
    }
}

fn sum_query(summing: Summing, selector: Selector, window: Window) -> Query
    ensures { result ≡ query_of (Question.Sum summing selector) window }
{
    match summing {
        Summing::Range => Query::Range { selector, window },
        Summing::Merge => Query::Merge { selector, window },
    }
}

/// The query of a question within a window.
pub(crate) fn query_of(question: Question, window: Window) -> Query
    ensures { result ≡ query_of question window }
{
    match question {
        Question::Types => Query::Types { window },
        Question::List(listing, filter) => list_query(listing, filter, window),
        Question::Sum(summing, selector) => sum_query(summing, selector, window),
    }
}
