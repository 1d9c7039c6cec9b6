ghost use Rattle.std.specs.Prelude.{◌≡◌, [], filter, unwrap_or, bytes_eq};
ghost use Rattle.std.specs.List.{list_all};
ghost use Rattle.fd_kinds.specs.LabelMaps.{value_of};
ghost use Rattle.fd_kinds.specs.Meaning.{agrees, is_match};
ghost use Rattle.fd_dictionary.specs.Dictionaries.{index_in};
ghost use Rattle.fd_scan.specs.RowPlaces.{row_at, has_text, is_entry};

use crate::cells::text_column;
use crate::lookup::{entry_of, is_entry};
use fd_column::places::NAME;
use fd_column::{Columns, Dictionary};
use fd_kinds::{MatchOp, Matcher, Matchers};

/// Whether a comparison that found the same or not agrees with what is asked.
fn agrees(op: MatchOp, same: bool) -> bool
    ensures { result ≡ agrees op same }
{
    match op {
        MatchOp::Equal => same,
        MatchOp::NotEqual => !same,
    }
}

/// Keeps the places whose cells agree with the wanted entry.
fn keep_entries(
    cells: &Dictionary,
    op: MatchOp,
    wanted: Option<usize>,
    empty: bool,
    places: &mut Vec<usize>,
)
    ensures { places.new.items
        ≡ filter (λ at. agrees op (is_entry wanted empty (index_in cells.now at)))
        places.old.items }
{
    places.retain(|at| agrees(op, is_entry(cells, wanted, empty, *at)));
}

/// Keeps the places whose cells agree with the text. The text is compared once with each distinct
/// one of the column.
pub fn keep_texts(cells: &Dictionary, op: MatchOp, text: &[u8], places: &mut Vec<usize>)
    ensures { places.new.items
        ≡ filter (λ at. agrees op (has_text cells.now text.now at)) places.old.items }
{
    let wanted = entry_of(cells, text);
    keep_entries(cells, op, wanted, text.is_empty(), places);
}

/// Keeps all places or none.
fn keep_where(agree: bool, places: &mut Vec<usize>)
    ensures { places.new.items ≡ filter (λ at. agree) places.old.items }
{
    places.retain(|_at| agree);
}

/// Keeps the places, where a text that is absent agrees with the text.
fn keep_absent(op: MatchOp, text: &[u8], places: &mut Vec<usize>)
    ensures { places.new.items ≡ filter (λ at. agrees op (bytes_eq [] text.now)) places.old.items }
{
    keep_where(agrees(op, text.is_empty()), places);
}

/// Keeps the places of the rows whose label agrees with the matcher's value.
fn keep_labels<C: Columns>(columns: &C, matcher: &Matcher, places: &mut Vec<usize>)
    ensures { places.new.items ≡ filter (λ at. agrees matcher.now.op (bytes_eq
        (unwrap_or (value_of (row_at (C.rows columns.now) at).labels.pairs matcher.now.name) [])
        matcher.now.value)) places.old.items }
{
    let text = matcher.value.as_bytes();
    match columns.label_column(&matcher.name) {
        Some(column) => keep_texts(text_column(columns, column), matcher.op, text, places),
        None => keep_absent(matcher.op, text, places),
    }
}

/// Keeps the places of the rows that meet the matcher.
fn keep_matching<C: Columns>(columns: &C, matcher: &Matcher, places: &mut Vec<usize>)
    ensures { places.new.items
        ≡ filter (λ at. is_match (row_at (C.rows columns.now) at) matcher.now) places.old.items }
{
    if matcher.name.as_str() == "__name__" {
        let text = matcher.value.as_bytes();
        keep_texts(text_column(columns, NAME), matcher.op, text, places);
    } else {
        keep_labels(columns, matcher, places);
    }
}

/// Keeps the places of the rows that meet all matchers.
pub fn keep_all_matching<C: Columns>(columns: &C, matchers: &Matchers, places: &mut Vec<usize>)
    ensures { places.new.items
        ≡ filter (λ at. list_all (is_match (row_at (C.rows columns.now) at)) matchers.now)
        places.old.items }
{
    for matcher in matchers.as_slice() {
        keep_matching(columns, matcher, places);
    }
}
