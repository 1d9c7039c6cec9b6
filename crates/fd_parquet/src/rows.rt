ghost use Rattle.std.specs.Prelude.{◌≡◌, ◌<◌, ◌≤◌, ◌^◌, ◌++◌, ◌∷◌, [], ℕ, pos, List, Some, None, true, IfOk, IfSome, All, IsUtf8, Decides, IsSorted, length, slice_get, ◌-◌};
ghost use Rattle.std.specs.Option.{option_copied};
ghost use Rattle.fd_kinds.specs.declared.row.Numbered.{Numbered as AnyRow};
ghost use Rattle.fd_footer.specs.Layout.{are_own};
ghost use Rattle.fd_table_file.specs.Files.{IsWithin};
ghost use Rattle.fd_parquet.specs.Stages.{AreRows, HaveTexts, BuildsRows};
ghost use Rattle.fd_parquet.specs.Rows.{cell_in, cell_number, cell_bytes, text_in, row_in, MayFollow};
ghost use Rattle.fd_column.specs.RowNumbers.{numbered_cmp};
ghost use Rattle.fd_column.specs.Stacks.{AreShort, frames_of};

use crate::labels::labels_at;
use crate::row_builder::RowBuilder;
use fd_column::{ColumnPart, read_stack, text_of};
use fd_footer::Column;
use fd_kinds::{NoMemory, Numbered, Row, Stack, Text};
use fd_pages::{Cell, CellList};
use std::alloc::Global;

/// The cell of a row in a column, by their places.
fn cell_at(cells: &[CellList], column: usize, at: usize) -> Option<&Cell>
    ensures { option_copied result ≡ cell_in cells.now column at }
{
    cells.get(column)?.get(at)
}

/// The number of a cell, 0 where it has none.
fn whole_at(cells: &[CellList], column: usize, at: usize) -> i64
    ensures { result ≡ cell_number (cell_in cells.now column at) }
{
    match cell_at(cells, column, at) {
        Some(Cell::Whole(number)) => *number,
        _ => 0,
    }
}

/// The bytes of a cell, none where it has none.
pub(crate) fn bytes_at(cells: &[CellList], column: usize, at: usize) -> Option<&[u8]>
    ensures { option_copied result ≡ cell_bytes (cell_in cells.now column at) }
{
    match cell_at(cells, column, at) {
        Some(Cell::Bytes(bytes)) => Some(bytes.as_slice()),
        _ => None,
    }
}

/// The text of a cell, which is empty where it has none.
fn text_at(alloc: Global, cells: &[CellList], column: usize, at: usize) -> Result<Text, NoMemory>
    requires { IsUtf8 (text_in cells.now column at) }
    ensures { IfOk result (λ text. text ≡ text_in cells.now column at) }
{
    match bytes_at(cells, column, at) {
        Some(bytes) => text_of(alloc, bytes),
        None => Ok(Text::new(alloc)),
    }
}

/// The stack of the bytes of a stack.
fn stack_of(alloc: Global, bytes: &[u8]) -> Result<Stack, NoMemory>
    requires { All IsUtf8 (frames_of bytes.now) }
    ensures frames { IfOk result (λ stack. stack ≡ frames_of bytes.now) }
    ensures short { IfOk result AreShort }
{
    match read_stack(alloc, bytes)? {
        Some(stack) => Ok(stack),
        None => unreachable!(),
    }
}

/// The stack of a row.
fn stack_at(alloc: Global, cells: &[CellList], column: usize, at: usize) -> Result<Stack, NoMemory>
    requires { All IsUtf8 (frames_of (text_in cells.now column at)) }
    ensures frames { IfOk result (λ stack. stack ≡ frames_of (text_in cells.now column at)) }
    ensures short { IfOk result AreShort }
{
    match bytes_at(cells, column, at) {
        Some(bytes) => stack_of(alloc, bytes),
        None => Ok(Stack::new(alloc)),
    }
}

/// The row at a place.
fn row_at(alloc: Global, columns: &[Column], cells: &[CellList], at: usize) -> Result<Row, NoMemory>
    requires own { are_own columns.now ≡ true }
    requires texts { HaveTexts columns.now cells.now }
    ensures row { IfOk result (λ row. row ≡ row_in columns.now cells.now at) }
    ensures short { IfOk result (λ row. AreShort row.stack) }
{
    Ok(Row {
        name: text_at(alloc, cells, 1, at)?,
        sample_type: text_at(alloc, cells, 2, at)?,
        sample_unit: text_at(alloc, cells, 3, at)?,
        period_type: text_at(alloc, cells, 4, at)?,
        period_unit: text_at(alloc, cells, 5, at)?,
        labels: labels_at(alloc, columns, b"labels.", cells, at)?,
        timestamp: whole_at(cells, 6, at),
        stack: stack_at(alloc, cells, 7, at)?,
        pprof_labels: labels_at(alloc, columns, b"pprof_labels.", cells, at)?,
        period: whole_at(cells, 8, at),
        duration: whole_at(cells, 9, at),
        value: whole_at(cells, 10, at),
    })
}

/// The number of a row's batch, none where it is out of the range.
fn batch_number_at(cells: &[CellList], at: usize, lo: u64, hi: u64) -> Option<u64>
    ensures found { IfSome result (λ n. cell_number (cell_in cells.now 0 at) ≡ pos n) }
    ensures range { IfSome result (λ n. (lo ≤ n) × (n ≤ hi)) }
    ensures only { (n : ℕ) → cell_number (cell_in cells.now 0 at) ≡ pos n → lo ≤ n → n ≤ hi
        → result ≡ Some n }
{
    let Ok(number) = u64::try_from(whole_at(cells, 0, at)) else {
        return None;
    };
    if number < lo || hi < number {
        return None;
    }
    Some(number)
}

/// The row at a place with its number, none where that is out of the range.
fn numbered_at(
    alloc: Global,
    columns: &[Column],
    cells: &[CellList],
    at: usize,
    lo: u64,
    hi: u64,
) -> Result<Option<Numbered>, NoMemory>
    requires own { are_own columns.now ≡ true }
    requires texts { HaveTexts columns.now cells.now }
    ensures number { IfOk result
        (λ next. IfSome next (λ n. cell_number (cell_in cells.now 0 at) ≡ pos n.number)) }
    ensures within { IfOk result (λ next. IfSome next (IsWithin lo hi)) }
    ensures row { IfOk result (λ next. IfSome next (λ n. n.row ≡ row_in columns.now cells.now at)) }
    ensures short { IfOk result (λ next. IfSome next (λ n. AreShort n.row.stack)) }
    ensures none { IfOk result
        (λ next. next ≡ None → (n : ℕ) → cell_number (cell_in cells.now 0 at) ≡ pos n → lo ≤ n
        → n ≤ hi → ⊥) }
{
    let Some(number) = batch_number_at(cells, at, lo, hi) else {
        return Ok(None);
    };
    let row = row_at(alloc, columns, cells, at)?;
    Ok(Some(Numbered { number, row }))
}

/// The `count` rows with these cells, none where they are out of order or a number is out of the
/// range.
fn rows_in(
    alloc: Global,
    columns: &[Column],
    cells: &[CellList],
    count: usize,
    lo: u64,
    hi: u64,
) -> Result<Option<RowBuilder>, NoMemory>
    requires below { hi < 2 ^ 63 }
    requires own { are_own columns.now ≡ true }
    requires texts { HaveTexts columns.now cells.now }
    ensures found { IfOk result
        (λ rows. IfSome rows (BuildsRows columns.now cells.now lo hi count)) }
    ensures none { IfOk result
        (λ found. found ≡ None → (rows : List AnyRow) → length rows ≡ count
        → AreRows columns.now cells.now lo hi rows → ⊥) }
{
    let mut rows = RowBuilder::new(alloc);
    for at in 0..count {
        let Some(next) = numbered_at(alloc, columns, cells, at, lo, hi)? else {
            return Ok(None);
        };
        let Some(more) = rows.with_next(next)? else {
            return Ok(None);
        };
        rows = more;
    }
    Ok(Some(rows))
}

/// The part of `count` rows with these cells, none where they are out of order or a number is out
/// of the range.
pub(crate) fn part_of(
    alloc: Global,
    columns: &[Column],
    cells: &[CellList],
    count: usize,
    lo: u64,
    hi: u64,
) -> Result<Option<ColumnPart>, NoMemory>
    requires below { hi < 2 ^ 63 }
    requires own { are_own columns.now ≡ true }
    requires texts { HaveTexts columns.now cells.now }
    ensures within { IfOk result (λ part. IfSome part (All (IsWithin lo hi))) }
    ensures sorted { IfOk result (λ part. IfSome part (IsSorted numbered_cmp)) }
    ensures counted { IfOk result (λ part. IfSome part (λ rows. length rows ≡ count)) }
    // Rows that have these cells are found, unless memory runs out.
    ensures only { (rows : List AnyRow) → length rows ≡ count
        → AreRows columns.now cells.now lo hi rows
        → IfOk result (λ part. part ≡ Some rows) }
{
    let Some(rows) = rows_in(alloc, columns, cells, count, lo, hi)? else {
        return Ok(None);
    };
    let part = rows.finish()?;
    Ok(Some(part))
}
