ghost use Rattle.std.specs.Prelude.{◌≡◌, ◌<◌, ◌&&◌, true, length, filter, IfOk};
ghost use Rattle.fd_kinds.specs.Meaning.{is_within, is_selected};
ghost use Rattle.fd_column.specs.Cells.{column_texts, is_text_column};
ghost use Rattle.fd_scan.specs.Aggregates.{counts, is_filtered};
ghost use Rattle.fd_scan.specs.RowPlaces.{row_at, places_of, has_text, has_texts};
ghost use Rattle.fd_scan.specs.RowPlaces.{has_delta, is_in_time};

use crate::cells::{duration_at, text_column, timestamp_at};
use crate::matchers::{keep_all_matching, keep_texts};
use fd_column::Columns;
use fd_column::places::{NAME, PERIOD_TYPE, PERIOD_UNIT, SAMPLE_TYPE, SAMPLE_UNIT};
use fd_kinds::{MatchOp, NoMemory, ProfileType, Query, Selector, Text, Window};
use std::alloc::Global;

/// Keeps the places of the rows that have the text in the column.
fn keep_equal<C: Columns>(columns: &C, column: usize, text: &Text, places: &mut Vec<usize>)
    requires { is_text_column (C.rows columns.now) column ≡ true }
    ensures { places.new.items
        ≡ filter (has_text (column_texts (C.rows columns.now) column) text.now) places.old.items }
{
    keep_texts(
        text_column(columns, column),
        MatchOp::Equal,
        text.as_bytes(),
        places,
    );
}

/// Keeps the places of the rows that have the five texts of the type.
fn keep_type<C: Columns>(columns: &C, kind: &ProfileType, places: &mut Vec<usize>)
    ensures { places.new.items
        ≡ filter (λ at. has_texts kind.now (row_at (C.rows columns.now) at)) places.old.items }
{
    keep_equal(columns, NAME, &kind.name, places);
    keep_equal(columns, SAMPLE_TYPE, &kind.sample_type, places);
    keep_equal(columns, SAMPLE_UNIT, &kind.sample_unit, places);
    keep_equal(columns, PERIOD_TYPE, &kind.period_type, places);
    keep_equal(columns, PERIOD_UNIT, &kind.period_unit, places);
}

/// Whether the row stands for a stretch of time as it is asked, where that is asked.
fn has_delta<C: Columns>(columns: &C, delta: Option<bool>, at: usize) -> bool
    requires { at < length (C.rows columns.now) }
    ensures { result ≡ has_delta delta (row_at (C.rows columns.now) at) }
{
    match delta {
        None => true,
        Some(true) => duration_at(columns, at) != 0,
        Some(false) => duration_at(columns, at) == 0,
    }
}

fn is_in_time<C: Columns>(columns: &C, window: &Window, delta: Option<bool>, at: usize) -> bool
    requires { at < length (C.rows columns.now) }
    ensures { result ≡ is_in_time window.now delta (row_at (C.rows columns.now) at) }
{
    let timestamp = timestamp_at(columns, at);
    window.start <= timestamp && timestamp <= window.end && has_delta(columns, delta, at)
}

/// The places of the rows that the window keeps, and that stand for a stretch of time as it is
/// asked, where that is asked.
fn places_in_time<C: Columns>(
    alloc: Global,
    columns: &C,
    window: &Window,
    delta: Option<bool>,
) -> Result<Vec<usize>, NoMemory>
    ensures { IfOk result (λ places. places.items
        ≡ filter (λ at. is_in_time window.now delta (row_at (C.rows columns.now) at))
        (places_of (C.rows columns.now))) }
{
    let mut places = Vec::new(alloc);
    for at in 0..columns.len() {
        if is_in_time(columns, window, delta, at) {
            places.push(at)?;
        }
    }
    Ok(places)
}

/// The places of the rows that the window keeps and the selector meets.
fn selected_places<C: Columns>(
    alloc: Global,
    columns: &C,
    selector: &Selector,
    window: &Window,
) -> Result<Vec<usize>, NoMemory>
    ensures { IfOk result (λ places. places.items
        ≡ filter (λ at. is_within window.now (row_at (C.rows columns.now) at)
        && is_selected selector.now (row_at (C.rows columns.now) at))
        (places_of (C.rows columns.now))) }
{
    let mut places = places_in_time(alloc, columns, window, Some(selector.kind.delta))?;
    keep_type(columns, &selector.kind, &mut places);
    keep_all_matching(columns, &selector.matchers, &mut places);
    Ok(places)
}

/// The places of the rows that the window keeps, and the wanted selector where there is one.
fn filtered_places<C: Columns>(
    alloc: Global,
    columns: &C,
    wanted: &Option<Selector>,
    window: &Window,
) -> Result<Vec<usize>, NoMemory>
    ensures { IfOk result (λ places. places.items
        ≡ filter (λ at. is_filtered wanted.now window.now (row_at (C.rows columns.now) at))
        (places_of (C.rows columns.now))) }
{
    match wanted {
        None => places_in_time(alloc, columns, window, None),
        Some(selector) => selected_places(alloc, columns, selector, window),
    }
}

/// The places of the rows that count for the query, in order.
pub fn counted_places<C: Columns>(
    alloc: Global,
    columns: &C,
    query: &Query,
) -> Result<Vec<usize>, NoMemory>
    ensures { IfOk result (λ places. places.items
        ≡ filter (λ at. counts query.now (row_at (C.rows columns.now) at))
        (places_of (C.rows columns.now))) }
{
    match query {
        Query::Types { window } => places_in_time(alloc, columns, window, None),
        Query::LabelNames { filter, window }
        | Query::Values { filter, window, .. }
        | Query::Series { filter, window } => filtered_places(alloc, columns, filter, window),
        Query::Range { selector, window } | Query::Merge { selector, window } => {
            selected_places(alloc, columns, selector, window)
        }
    }
}
