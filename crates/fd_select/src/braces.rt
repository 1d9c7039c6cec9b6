ghost use Rattle.std.specs.Prelude.{◌≢◌, MatchOption, ◌≡◌, ℕ, List};
ghost use Rattle.fd_select.specs.Braces.{ReadsBraces};
ghost use Rattle.fd_kinds.specs.declared.query.Matcher.{Matcher};

use crate::reader::{Reader, Stage};
use fd_kinds::{Items, Matchers};
use std::alloc::Global;

/// Why the text behind `{` is none of matchers.
#[derive(Debug, Clone, Copy, PartialEq, Eq)]
pub(crate) enum BracesFault {
    /// The length of the longest beginning that such texts have too.
    Stops(usize),
    NoMemory,
}

/// The matchers, where the reader is at its end.
fn finish(reader: Reader) -> Option<Matchers>
    ensures { MatchOption result
        ((ms : List Matcher) → reader ≢ record { matchers = ms; stage = Stage.End })
        (λ ms. reader ≡ record { matchers = ms; stage = Stage.End }) }
{
    let Reader { matchers, stage } = reader;
    match stage {
        Stage::End => Some(matchers),
        _ => None,
    }
}

/// The matchers of the text behind `{`.
#[tactic(auto, using(crate::proofs::Places::reader_steps))]
pub(crate) fn read_braces(alloc: Global, text: &str) -> Result<Matchers, BracesFault>
    ensures { ReadsBraces text.now result }
{
    let mut reader = Reader {
        matchers: Items::new(alloc),
        stage: Stage::Open,
    };
    for (i, byte) in text.as_bytes().iter().enumerate() {
        let Ok(next) = reader.step(*byte) else {
            return Err(BracesFault::NoMemory);
        };
        let Some(next) = next else {
            return Err(BracesFault::Stops(i));
        };
        reader = next;
    }
    match finish(reader) {
        Some(matchers) => Ok(matchers),
        None => Err(BracesFault::Stops(text.len())),
    }
}
