ghost use Rattle.std.specs.Prelude.{◌≡◌, ◌<◌, ◌&&◌, ℕ, not, pos, length, take, List, [], ◌∷◌, ◌++◌};
ghost use Rattle.std.specs.Prelude.{map, All, OnOk, OnErr, IfOk, Decides, Some};
ghost use Rattle.fd_kinds.specs.declared.row.Row.{Row};
ghost use Rattle.fd_kinds.specs.Meaning.{type_of, type_cmp, is_of_type};
ghost use Rattle.std.specs.Ordering.{int_eq};
ghost use Rattle.fd_column.specs.Cells.{column_texts};
ghost use Rattle.fd_scan.specs.RowPlaces.{row_at, rows_at, has_text, has_texts};
ghost use Rattle.fd_groups.specs.DistinctItems.{AreDistinct};

use crate::cells::{duration_at, has_cell, text_at, text_column};
use fd_column::Columns;
use fd_column::places::{NAME, PERIOD_TYPE, PERIOD_UNIT, SAMPLE_TYPE, SAMPLE_UNIT};
use fd_groups::DistinctItems;
use fd_kinds::{NoMemory, ProfileType};
use std::alloc::Global;

/// Whether the cells of the row at a place have the five texts of the type.
fn cells_have_texts<C: Columns>(columns: &C, at: usize, kind: &ProfileType) -> bool
    ensures { result ≡ (
        has_text (column_texts (C.rows columns.now) 1) kind.now.name at
        && has_text (column_texts (C.rows columns.now) 2) kind.now.sample_type at
        && has_text (column_texts (C.rows columns.now) 3) kind.now.sample_unit at
        && has_text (column_texts (C.rows columns.now) 4) kind.now.period_type at
        && has_text (column_texts (C.rows columns.now) 5) kind.now.period_unit at) }
{
    has_cell(text_column(columns, NAME), at, &kind.name)
        && has_cell(text_column(columns, SAMPLE_TYPE), at, &kind.sample_type)
        && has_cell(text_column(columns, SAMPLE_UNIT), at, &kind.sample_unit)
        && has_cell(text_column(columns, PERIOD_TYPE), at, &kind.period_type)
        && has_cell(text_column(columns, PERIOD_UNIT), at, &kind.period_unit)
}

/// Whether the row at a place has the five texts of the type.
#[tactic(auto, using(crate::proofs::TypeCells::texts_compared))]
fn has_texts_at<C: Columns>(columns: &C, at: usize, kind: &ProfileType) -> bool
    ensures { result ≡ has_texts kind.now (row_at (C.rows columns.now) at) }
{
    cells_have_texts(columns, at, kind)
}

/// Whether the row at a place stands for a stretch of time.
fn is_delta_at<C: Columns>(columns: &C, at: usize) -> bool
    requires { at < length (C.rows columns.now) }
    ensures { result ≡ not (int_eq (row_at (C.rows columns.now) at).duration (pos 0)) }
{
    duration_at(columns, at) != 0
}

/// A copy of the profile type of the row at a place.
#[tactic(auto, using(crate::proofs::RowTexts::name_text, crate::proofs::RowTexts::sample_type_text, crate::proofs::RowTexts::sample_unit_text, crate::proofs::RowTexts::period_type_text, crate::proofs::RowTexts::period_unit_text))]
fn type_at<C: Columns>(alloc: Global, columns: &C, at: usize) -> Result<ProfileType, NoMemory>
    requires { at < length (C.rows columns.now) }
    ensures { IfOk result (λ kind. kind ≡ type_of (row_at (C.rows columns.now) at)) }
{
    columns.utf8();
    Ok(ProfileType {
        name: text_at(alloc, columns, NAME, at)?,
        sample_type: text_at(alloc, columns, SAMPLE_TYPE, at)?,
        sample_unit: text_at(alloc, columns, SAMPLE_UNIT, at)?,
        period_type: text_at(alloc, columns, PERIOD_TYPE, at)?,
        period_unit: text_at(alloc, columns, PERIOD_UNIT, at)?,
        delta: is_delta_at(columns, at),
    })
}

/// Whether the row at a place has the profile type.
fn is_type_at<C: Columns>(columns: &C, at: usize, kind: &ProfileType) -> bool
    requires { at < length (C.rows columns.now) }
    ensures { result ≡ is_of_type (row_at (C.rows columns.now) at) kind.now }
{
    has_texts_at(columns, at, kind)
        && (if kind.delta {
            is_delta_at(columns, at)
        } else {
            duration_at(columns, at) == 0
        })
}

/// Whether the last type is that of the row at a place.
fn is_last_at<C: Columns>(types: &DistinctItems<ProfileType>, columns: &C, at: usize) -> bool
    requires { at < length (C.rows columns.now) }
    ensures { Decides result (types.now.last ≡ Some (type_of (row_at (C.rows columns.now) at))) }
{
    match &types.last {
        Some(kind) => is_type_at(columns, at, kind),
        None => false,
    }
}

/// Adds the profile type of the row at a place.
fn add_type_at<C: Columns>(
    alloc: Global,
    types: &mut DistinctItems<ProfileType>,
    columns: &C,
    at: usize,
) -> Result<(), NoMemory>
    requires { at < length (C.rows columns.now) }
    ensures ok { OnOk result (
        (rows : List Row)
        → AreDistinct type_cmp types.old.found.keys types.old.last (map type_of rows)
        → AreDistinct type_cmp types.new.found.keys types.new.last
        (map type_of (rows ++ row_at (C.rows columns.now) at ∷ []))) }
    ensures err { OnErr result (
        (rows : List Row)
        → AreDistinct type_cmp types.old.found.keys types.old.last (map type_of rows)
        → AreDistinct type_cmp types.new.found.keys types.new.last (map type_of rows)) }
{
    if is_last_at(types, columns, at) {
        return Ok(());
    }
    types.add(type_at(alloc, columns, at)?, type_at(alloc, columns, at)?)
}

/// Adds the profile types of the rows at the places; after a refusal those of a first part of them.
pub fn add_types_at<C: Columns>(
    alloc: Global,
    types: &mut DistinctItems<ProfileType>,
    columns: &C,
    places: &[usize],
) -> Result<(), NoMemory>
    requires { All (λ at. at < length (C.rows columns.now)) places.now }
    ensures ok { OnOk result (
        (rows : List Row)
        → AreDistinct type_cmp types.old.found.keys types.old.last (map type_of rows)
        → AreDistinct type_cmp types.new.found.keys types.new.last
        (map type_of (rows ++ rows_at (C.rows columns.now) places.now))) }
    ensures err { OnErr result (
        (k : ℕ) × ((rows : List Row)
        → AreDistinct type_cmp types.old.found.keys types.old.last (map type_of rows)
        → AreDistinct type_cmp types.new.found.keys types.new.last
        (map type_of (rows ++ rows_at (C.rows columns.now) (take k places.now))))) }
{
    for at in places {
        add_type_at(alloc, types, columns, *at)?;
    }
    Ok(())
}
