ghost use Rattle.std.specs.Prelude.{◌≡◌, ◌<◌, Some, IfOk, IsTrue, All, IsUtf8, length, slice_get};
ghost use Rattle.std.specs.Prelude.{option_map, IfSome};
ghost use Rattle.fd_dictionary.specs.Dictionaries.{cell_in};
ghost use Rattle.fd_kinds.specs.Labels.{are_labels};
ghost use Rattle.fd_column.specs.LabelColumns.{pairs_at};
ghost use Rattle.fd_column.specs.Tables.{rows_of_table, row_at, text_at, number_at, number_in};
ghost use Rattle.fd_column.specs.Tables.{IsGrowing};
ghost use Rattle.fd_column.specs.Stacks.{frames_of};
ghost use Rattle.fd_column.specs.Texts.{HasTexts};

use crate::label_columns::labels_at;
use crate::stacks::{read_stack, text_of};
use crate::table::Table;
use fd_dictionary::Dictionary;
use fd_kinds::{Items, Labels, NoMemory, Numbered, Row, Stack, Text};
use std::alloc::Global;

/// The text of a cell, which is empty where the cell is absent.
fn cell_text(alloc: Global, cells: &Dictionary, at: usize) -> Result<Text, NoMemory>
    requires { IsUtf8 (text_at cells.now at) }
    ensures { IfOk result (λ text. text ≡ text_at cells.now at) }
{
    match cells.cell(at) {
        Some(bytes) => text_of(alloc, bytes),
        None => Ok(Text::new(alloc)),
    }
}

/// The stack of the bytes of a stack.
fn frames_in(alloc: Global, bytes: &[u8]) -> Result<Stack, NoMemory>
    requires { All IsUtf8 (frames_of bytes.now) }
    ensures { IfOk result (λ stack. stack ≡ frames_of bytes.now) }
{
    match read_stack(alloc, bytes)? {
        Some(stack) => Ok(stack),
        None => unreachable!(),
    }
}

/// The stack of a cell.
fn cell_stack(alloc: Global, cells: &Dictionary, at: usize) -> Result<Stack, NoMemory>
    requires { All IsUtf8 (frames_of (text_at cells.now at)) }
    ensures { IfOk result (λ stack. stack ≡ frames_of (text_at cells.now at)) }
{
    match cells.cell(at) {
        Some(bytes) => frames_in(alloc, bytes),
        None => Ok(Stack::new(alloc)),
    }
}

/// A number of a column, 0 where there is none.
fn whole_or_zero(numbers: &Items<i64>, at: usize) -> i64
    ensures { result ≡ number_at numbers.now at }
{
    match numbers.get(at) {
        Some(number) => *number,
        None => 0,
    }
}

/// The number of a row's batch, 0 where there is none.
fn batch_number(numbers: &Items<u64>, at: usize) -> u64
    ensures { result ≡ number_in numbers.now at }
{
    match numbers.get(at) {
        Some(number) => *number,
        None => 0,
    }
}

/// The row that the columns have at a place.
fn fields_of(alloc: Global, table: &Table<Dictionary>, at: usize) -> Result<Row, NoMemory>
    requires labels { IsTrue (are_labels (pairs_at table.now.labels at)) }
    requires pprof_labels { IsTrue (are_labels (pairs_at table.now.pprof_labels at)) }
    requires label_texts { All (λ c. IfSome (cell_in c.cells at) IsUtf8) table.now.labels }
    requires pprof_label_texts { All (λ c. IfSome (cell_in c.cells at) IsUtf8) table.now.pprof_labels }
    requires texts { HasTexts (row_at table.now at).row }
    ensures { IfOk result (λ row. row ≡ (row_at table.now at).row) }
{
    let kinds = &table.kinds;
    let wholes = &table.wholes;
    Ok(Row {
        name: cell_text(alloc, &kinds.name, at)?,
        sample_type: cell_text(alloc, &kinds.sample_type, at)?,
        sample_unit: cell_text(alloc, &kinds.sample_unit, at)?,
        period_type: cell_text(alloc, &kinds.period_type, at)?,
        period_unit: cell_text(alloc, &kinds.period_unit, at)?,
        labels: labels_at(alloc, &table.labels, at)?,
        timestamp: whole_or_zero(&wholes.timestamps, at),
        stack: cell_stack(alloc, &table.stacks, at)?,
        pprof_labels: labels_at(alloc, &table.pprof_labels, at)?,
        period: whole_or_zero(&wholes.periods, at),
        duration: whole_or_zero(&wholes.durations, at),
        value: whole_or_zero(&wholes.values, at),
    })
}

/// The row that the columns have at a place.
pub fn row_of(table: &Table<Dictionary>, at: usize) -> Result<Numbered, NoMemory>
    requires growing { IsGrowing table.now }
    requires inside { at < length (rows_of_table table.now) }
    ensures { IfOk result (λ row. slice_get (rows_of_table table.now) at ≡ Some row) }
{
    let number = batch_number(&table.numbers, at);
    let row = fields_of(table.numbers.allocator(), table, at)?;
    Ok(Numbered { number, row })
}

/// The series labels of the row that the columns have at a place.
pub fn labels_of_table(table: &Table<Dictionary>, at: usize) -> Result<Labels, NoMemory>
    requires growing { IsGrowing table.now }
    requires inside { at < length (rows_of_table table.now) }
    ensures { IfOk result (λ labels.
        option_map (λ row. row.row.labels) (slice_get (rows_of_table table.now) at)
        ≡ Some labels) }
{
    labels_at(table.numbers.allocator(), &table.labels, at)
}

/// The stack of the row that the columns have at a place.
pub fn stack_of_table(table: &Table<Dictionary>, at: usize) -> Result<Stack, NoMemory>
    requires growing { IsGrowing table.now }
    requires inside { at < length (rows_of_table table.now) }
    ensures { IfOk result (λ stack.
        option_map (λ row. row.row.stack) (slice_get (rows_of_table table.now) at)
        ≡ Some stack) }
{
    cell_stack(table.numbers.allocator(), &table.stacks, at)
}
