ghost use Rattle.std.specs.Prelude.{◌≡◌, ◌<◌, ℕ, length, take, List, [], ◌∷◌, ◌++◌, map, All};
ghost use Rattle.std.specs.Prelude.{OnOk, OnErr, IfOk, IfSome, Decides, Some, None};
ghost use Rattle.fd_kinds.specs.declared.row.Row.{Row};
ghost use Rattle.fd_kinds.specs.Meaning.{series_of, series_cmp};
ghost use Rattle.fd_scan.specs.RowPlaces.{row_at, rows_at};
ghost use Rattle.fd_groups.specs.DistinctItems.{AreDistinct};
ghost use Rattle.fd_scan.specs.LastSeries.{last_series};

use crate::cells::{has_same_labels, has_same_name, labels_at, name_at};
use fd_column::Columns;
use fd_kinds::{NoMemory, SeriesName};
use std::alloc::Global;
use std::collections::BTreeSet;

/// A copy of the name and the labels of the series of the row at a place.
fn series_at<C: Columns>(alloc: Global, columns: &C, at: usize) -> Result<SeriesName, NoMemory>
    requires { at < length (C.rows columns.now) }
    ensures { IfOk result (λ series. series ≡ series_of (row_at (C.rows columns.now) at)) }
{
    Ok(SeriesName {
        name: name_at(alloc, columns, at)?,
        labels: labels_at(columns, at)?,
    })
}

/// Whether two rows have the same series, of whose texts none is read.
fn is_same_series<C: Columns>(columns: &C, a: usize, b: usize) -> bool
    requires first { a < length (C.rows columns.now) }
    requires second { b < length (C.rows columns.now) }
    ensures { Decides result (
        series_of (row_at (C.rows columns.now) a) ≡ series_of (row_at (C.rows columns.now) b)) }
{
    has_same_name(columns, a, b) && has_same_labels(columns, a, b)
}

/// Whether the row at a place has the series of the last place.
fn is_last_series<C: Columns>(columns: &C, last: Option<usize>, at: usize) -> bool
    requires last { IfSome last (λ place. place < length (C.rows columns.now)) }
    requires at { at < length (C.rows columns.now) }
    ensures { Decides result (
        last_series (C.rows columns.now) last ≡ last_series (C.rows columns.now) (Some at)) }
{
    match last {
        Some(last) => is_same_series(columns, last, at),
        None => false,
    }
}

/// Adds the series of the row at a place behind the last one: a copy where it is another.
fn add_behind<C: Columns>(
    alloc: Global,
    found: &mut BTreeSet<SeriesName>,
    columns: &C,
    last: Option<usize>,
    at: usize,
) -> Result<(), NoMemory>
    requires last { IfSome last (λ place. place < length (C.rows columns.now)) }
    requires at { at < length (C.rows columns.now) }
    ensures ok { OnOk result (
        (rows : List Row)
        → AreDistinct series_cmp found.old.keys (last_series (C.rows columns.now) last)
        (map series_of rows)
        → AreDistinct series_cmp found.new.keys (last_series (C.rows columns.now) (Some at))
        (map series_of (rows ++ row_at (C.rows columns.now) at ∷ []))) }
    ensures err { OnErr result (found.new.keys ≡ found.old.keys) }
{
    if is_last_series(columns, last, at) {
        return Ok(());
    }
    found.insert(series_at(alloc, columns, at)?)?;
    Ok(())
}

/// Adds the series of the rows at the places; after a refusal those of a first part of them. Of
/// rows that stand together with one series only the first has it copied.
pub fn add_series_at<C: Columns>(
    alloc: Global,
    found: &mut BTreeSet<SeriesName>,
    columns: &C,
    places: &[usize],
) -> Result<(), NoMemory>
    requires { All (λ at. at < length (C.rows columns.now)) places.now }
    ensures ok { OnOk result (
        (rows : List Row) → AreDistinct series_cmp found.old.keys None (map series_of rows)
        → AreDistinct series_cmp found.new.keys None
        (map series_of (rows ++ rows_at (C.rows columns.now) places.now))) }
    ensures err { OnErr result (
        (k : ℕ) × ((rows : List Row)
        → AreDistinct series_cmp found.old.keys None (map series_of rows)
        → AreDistinct series_cmp found.new.keys None
        (map series_of (rows ++ rows_at (C.rows columns.now) (take k places.now))))) }
{
    let mut last = None;
    for at in places {
        add_behind(alloc, found, columns, last, *at)?;
        last = Some(*at);
    }
    Ok(())
}
