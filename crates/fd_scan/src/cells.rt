ghost use Rattle.std.specs.Prelude.{◌≡◌, ◌<◌, true, length, IfOk, IsUtf8, Decides};
ghost use Rattle.fd_column.specs.Cells.{column_texts, is_text_column};
ghost use Rattle.fd_scan.specs.RowPlaces.{row_at, text_of, has_text};

use fd_column::places::{DURATION, NAME, TIMESTAMP, VALUE};
use fd_column::{Columns, Dictionary, text_of};
use fd_kinds::{Labels, NoMemory, Stack, Text};
use std::alloc::Global;

/// The cells of a column of texts.
pub fn text_column<C: Columns>(columns: &C, column: usize) -> &Dictionary
    requires { is_text_column (C.rows columns.now) column ≡ true }
    ensures { result.now ≡ column_texts (C.rows columns.now) column }
{
    match columns.dictionary(column) {
        Some(cells) => cells,
        None => unreachable!(),
    }
}

/// A copy of the text of a cell, the empty one where it is absent.
fn cell_text(alloc: Global, cells: &Dictionary, at: usize) -> Result<Text, NoMemory>
    requires { IsUtf8 (text_of cells.now at) }
    ensures { IfOk result (λ text. text ≡ text_of cells.now at) }
{
    match cells.cell(at) {
        Some(bytes) => text_of(alloc, bytes),
        None => Ok(Text::new(alloc)),
    }
}

/// A copy of the text of a row in a column, the empty one where it is absent.
pub fn text_at<C: Columns>(
    alloc: Global,
    columns: &C,
    column: usize,
    at: usize,
) -> Result<Text, NoMemory>
    requires kind { is_text_column (C.rows columns.now) column ≡ true }
    requires utf8 { IsUtf8 (text_of (column_texts (C.rows columns.now) column) at) }
    ensures { IfOk result (λ text. text ≡ text_of (column_texts (C.rows columns.now) column) at) }
{
    cell_text(alloc, text_column(columns, column), at)
}

/// A copy of a row's name.
#[tactic(auto, using(crate::proofs::CellValues::name_read, crate::proofs::RowTexts::name_text))]
pub fn name_at<C: Columns>(alloc: Global, columns: &C, at: usize) -> Result<Text, NoMemory>
    ensures { IfOk result (λ text. text ≡ (row_at (C.rows columns.now) at).name) }
{
    columns.utf8();
    text_at(alloc, columns, NAME, at)
}

/// Whether a cell has the text; an absent one has the empty text.
#[tactic(auto, using(crate::proofs::LookupLaws::empty_text))]
pub fn has_cell(cells: &Dictionary, at: usize, text: &Text) -> bool
    ensures { result ≡ has_text cells.now text.now at }
{
    match cells.cell(at) {
        Some(bytes) => bytes == text.as_bytes(),
        None => text.is_empty(),
    }
}

/// The labels of a row's series.
#[tactic(auto, using(crate::proofs::CellValues::labels_read))]
pub fn labels_at<C: Columns>(columns: &C, at: usize) -> Result<Labels, NoMemory>
    requires { at < length (C.rows columns.now) }
    ensures { IfOk result (λ labels. labels ≡ (row_at (C.rows columns.now) at).labels) }
{
    columns.labels(at)
}

/// Whether the series of two rows have the same labels.
pub fn has_same_labels<C: Columns>(columns: &C, a: usize, b: usize) -> bool
    requires first { a < length (C.rows columns.now) }
    requires second { b < length (C.rows columns.now) }
    ensures { Decides result (
        (row_at (C.rows columns.now) a).labels ≡ (row_at (C.rows columns.now) b).labels) }
{
    columns.same_labels(a, b)
}

/// Whether two rows have the same name.
#[tactic(auto, using(crate::proofs::CellValues::same_name))]
pub fn has_same_name<C: Columns>(columns: &C, a: usize, b: usize) -> bool
    ensures same { result ≡ true
        → (row_at (C.rows columns.now) a).name ≡ (row_at (C.rows columns.now) b).name }
    ensures decided { a < length (C.rows columns.now) → b < length (C.rows columns.now)
        → Decides result (
        (row_at (C.rows columns.now) a).name ≡ (row_at (C.rows columns.now) b).name) }
{
    text_column(columns, NAME).is_same(a, b)
}

/// The stack of a row.
#[tactic(auto, using(crate::proofs::CellValues::stack_read))]
pub fn stack_at<C: Columns>(columns: &C, at: usize) -> Result<Stack, NoMemory>
    requires { at < length (C.rows columns.now) }
    ensures { IfOk result (λ stack. stack ≡ (row_at (C.rows columns.now) at).stack) }
{
    columns.stack(at)
}

/// The timestamp of a row, in milliseconds since the Unix epoch.
#[tactic(auto, using(crate::proofs::CellValues::timestamp_read, crate::proofs::CellValues::fixed_inside))]
pub fn timestamp_at<C: Columns>(columns: &C, at: usize) -> i64
    requires { at < length (C.rows columns.now) }
    ensures { result ≡ (row_at (C.rows columns.now) at).timestamp }
{
    match columns.whole(TIMESTAMP, at) {
        Some(timestamp) => timestamp,
        None => 0,
    }
}

/// The duration of a row, in nanoseconds.
#[tactic(auto, using(crate::proofs::CellValues::duration_read, crate::proofs::CellValues::fixed_inside))]
pub fn duration_at<C: Columns>(columns: &C, at: usize) -> i64
    requires { at < length (C.rows columns.now) }
    ensures { result ≡ (row_at (C.rows columns.now) at).duration }
{
    match columns.whole(DURATION, at) {
        Some(duration) => duration,
        None => 0,
    }
}

/// The value of a row.
#[tactic(auto, using(crate::proofs::CellValues::value_read, crate::proofs::CellValues::fixed_inside))]
pub fn value_at<C: Columns>(columns: &C, at: usize) -> i64
    requires { at < length (C.rows columns.now) }
    ensures { result ≡ (row_at (C.rows columns.now) at).value }
{
    match columns.whole(VALUE, at) {
        Some(value) => value,
        None => 0,
    }
}
