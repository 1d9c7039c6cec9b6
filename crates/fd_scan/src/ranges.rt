ghost use Rattle.std.specs.Prelude.{◌≡◌, ◌<◌, ℕ, length, take, List, [], ◌∷◌, ◌++◌, All};
ghost use Rattle.std.specs.Prelude.{OnOk, OnErr, IfOk, IfSome};
ghost use Rattle.fd_kinds.specs.declared.row.Row.{Row};
ghost use Rattle.fd_groups.specs.Groups.{AreRanges};
ghost use Rattle.fd_scan.specs.RowPlaces.{row_at, rows_at};
ghost use Rattle.fd_scan.specs.LabelledPlaces.{IsLabelled};

use crate::cells::{has_same_labels, labels_at, timestamp_at, value_at};
use fd_column::Columns;
use fd_groups::{Ranges, add_to_range};
use fd_kinds::{Labels, NoMemory};
use std::alloc::Global;

/// The place of a row, and a copy of its labels.
#[derive(Drop)]
struct LabelledPlace {
    at: usize,
    labels: Labels,
}

/// The place and the labels of a row behind the last one, whose copy is taken where the labels are
/// the same.
fn labelled_behind<C: Columns>(
    columns: &C,
    last: Option<LabelledPlace>,
    at: usize,
) -> Result<LabelledPlace, NoMemory>
    requires last { IfSome last (IsLabelled (C.rows columns.now)) }
    requires at { at < length (C.rows columns.now) }
    ensures here { IfOk result (λ place. place.at ≡ at) }
    ensures labelled { IfOk result (IsLabelled (C.rows columns.now)) }
{
    if let Some(last) = last {
        if has_same_labels(columns, last.at, at) {
            let LabelledPlace { at: _, labels } = last;
            return Ok(LabelledPlace { at, labels });
        }
    }
    Ok(LabelledPlace {
        at,
        labels: labels_at(columns, at)?,
    })
}

/// Adds the value of a row to the points of its labels, at its time.
fn add_labelled<C: Columns>(
    alloc: Global,
    ranges: &mut Ranges,
    columns: &C,
    place: &LabelledPlace,
) -> Result<(), NoMemory>
    requires { IsLabelled (C.rows columns.now) place.now }
    ensures ok { OnOk result (
        (rows : List Row) → AreRanges ranges.old rows
        → AreRanges ranges.new (rows ++ row_at (C.rows columns.now) place.now.at ∷ [])) }
    ensures err { OnErr result (
        (rows : List Row) → AreRanges ranges.old rows → AreRanges ranges.new rows) }
{
    let timestamp = timestamp_at(columns, place.at);
    let value = value_at(columns, place.at);
    add_to_range(alloc, ranges, &place.labels, timestamp, value)
}

/// Adds the value of the row at a place behind the last one.
fn add_behind<C: Columns>(
    alloc: Global,
    ranges: &mut Ranges,
    columns: &C,
    last: Option<LabelledPlace>,
    at: usize,
) -> Result<LabelledPlace, NoMemory>
    requires last { IfSome last (IsLabelled (C.rows columns.now)) }
    requires at { at < length (C.rows columns.now) }
    ensures labelled { IfOk result (IsLabelled (C.rows columns.now)) }
    ensures ok { OnOk result (
        (rows : List Row) → AreRanges ranges.old rows
        → AreRanges ranges.new (rows ++ row_at (C.rows columns.now) at ∷ [])) }
    ensures err { OnErr result (
        (rows : List Row) → AreRanges ranges.old rows → AreRanges ranges.new rows) }
{
    let place = labelled_behind(columns, last, at)?;
    add_labelled(alloc, ranges, columns, &place)?;
    Ok(place)
}

/// Adds the values of the rows at the places; after a refusal those of a first part of them. Of
/// rows that stand together with the same labels only the first has them copied.
pub fn add_ranges_at<C: Columns>(
    alloc: Global,
    ranges: &mut Ranges,
    columns: &C,
    places: &[usize],
) -> Result<(), NoMemory>
    requires { All (λ at. at < length (C.rows columns.now)) places.now }
    ensures ok { OnOk result (
        (rows : List Row) → AreRanges ranges.old rows
        → AreRanges ranges.new (rows ++ rows_at (C.rows columns.now) places.now)) }
    ensures err { OnErr result (
        (k : ℕ) × ((rows : List Row) → AreRanges ranges.old rows
        → AreRanges ranges.new (rows ++ rows_at (C.rows columns.now) (take k places.now)))) }
{
    let mut last = None;
    for at in places {
        last = Some(add_behind(alloc, ranges, columns, last, *at)?);
    }
    Ok(())
}
