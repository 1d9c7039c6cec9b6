ghost use Rattle.std.specs.Prelude.{◌≡◌, ◌<◌, ◌^◌, pos, Some, None, true, length, slice_get};
ghost use Rattle.std.specs.Prelude.{option_map, is_some, IfSome, All};
ghost use Rattle.std.specs.Option.{option_copied};
ghost use Rattle.fd_kinds.specs.LabelMaps.{value_of};
ghost use Rattle.fd_column.specs.Cells.{cell_at, column_texts, columns_of, is_text_column, label};
ghost use Rattle.fd_column.specs.Cells.{text_in, whole_in};
ghost use Rattle.fd_column.specs.LabelColumns.{labelled_cell, place_of};
ghost use Rattle.fd_column.specs.Tables.{rows_of_table, IsGrowing};

use crate::table::{LabelColumn, Table};
use fd_dictionary::Dictionary;
use fd_kinds::{Items, Text};

/// The text of a cell of the columns of labels, none where it is absent or there is no such column.
fn labelled_text(
    columns: &Items<LabelColumn<Dictionary>>,
    column: usize,
    at: usize,
) -> Option<&[u8]>
    ensures { option_copied result ≡ labelled_cell columns.now column at }
{
    columns.get(column)?.cells.cell(at)
}

/// The text of a row in a column.
pub fn text_of_table(table: &Table<Dictionary>, column: usize, at: usize) -> Option<&[u8]>
    requires growing { IsGrowing table.now }
    requires inside { at < length (rows_of_table table.now) }
    ensures { option_copied result ≡ text_in (cell_at (rows_of_table table.now) column at) }
{
    match column {
        0 | 6 | 8 | 9 | 10 => None,
        1 => table.kinds.name.cell(at),
        2 => table.kinds.sample_type.cell(at),
        3 => table.kinds.sample_unit.cell(at),
        4 => table.kinds.period_type.cell(at),
        5 => table.kinds.period_unit.cell(at),
        7 => table.stacks.cell(at),
        _ => {
            let label = column - 11;
            let count = table.labels.len();
            if label < count {
                labelled_text(&table.labels, label, at)
            } else {
                labelled_text(&table.pprof_labels, label - count, at)
            }
        }
    }
}

/// The cells of a column of labels, none where there is no such column.
fn labelled_cells(columns: &Items<LabelColumn<Dictionary>>, column: usize) -> Option<&Dictionary>
    ensures { option_copied result
        ≡ option_map (λ labelled. labelled.cells) (slice_get columns.now column) }
{
    Some(&columns.get(column)?.cells)
}

/// The column of texts at a place, none where the column has whole numbers or there is none.
pub fn dictionary_of_table(table: &Table<Dictionary>, column: usize) -> Option<&Dictionary>
    requires { IsGrowing table.now }
    ensures kind { is_some result ≡ is_text_column (rows_of_table table.now) column }
    ensures cells { IfSome result (λ dictionary.
        dictionary.now ≡ column_texts (rows_of_table table.now) column) }
{
    match column {
        0 | 6 | 8 | 9 | 10 => None,
        1 => Some(&table.kinds.name),
        2 => Some(&table.kinds.sample_type),
        3 => Some(&table.kinds.sample_unit),
        4 => Some(&table.kinds.period_type),
        5 => Some(&table.kinds.period_unit),
        7 => Some(&table.stacks),
        _ => {
            let label = column - 11;
            let count = table.labels.len();
            if label < count {
                labelled_cells(&table.labels, label)
            } else {
                labelled_cells(&table.pprof_labels, label - count)
            }
        }
    }
}

/// A number of a column, none where there is none.
fn whole_cell(numbers: &Items<i64>, at: usize) -> Option<i64>
    ensures { result ≡ slice_get numbers.now at }
{
    numbers.get(at).copied()
}

/// The number of a row's batch, which fits 63 bits.
fn batch_cell(numbers: &Items<u64>, at: usize) -> Option<i64>
    requires { All (λ number. number < 2 ^ 63) numbers.now }
    ensures { result ≡ option_map (λ number. pos number) (slice_get numbers.now at) }
{
    match numbers.get(at) {
        Some(number) => Some(*number as i64),
        None => None,
    }
}

/// The whole number of a row in a column.
pub fn whole_of_table(table: &Table<Dictionary>, column: usize, at: usize) -> Option<i64>
    requires growing { IsGrowing table.now }
    requires inside { at < length (rows_of_table table.now) }
    ensures { result ≡ whole_in (cell_at (rows_of_table table.now) column at) }
{
    match column {
        0 => batch_cell(&table.numbers, at),
        6 => whole_cell(&table.wholes.timestamps, at),
        8 => whole_cell(&table.wholes.periods, at),
        9 => whole_cell(&table.wholes.durations, at),
        10 => whole_cell(&table.wholes.values, at),
        _ => None,
    }
}

#[tactic(auto, using(std::proofs::lemmas::Grind::common_steps, crate::proofs::LabelPlaces::place_here, crate::proofs::LabelPlaces::place_behind))]
/// The place of the column of this name, none where there is none.
fn place_of(columns: &[LabelColumn<Dictionary>], name: &Text) -> Option<usize>
    ensures place { result ≡ place_of name.now columns.now }
    ensures small { IfSome result (λ place. place < 2 ^ 63) }
{
    for (place, column) in columns.iter().enumerate() {
        if name.cmp(&column.name).is_eq() {
            return Some(place);
        }
    }
    None
}

/// The place of the column of the series labels of this name, none where there is none.
pub fn label_column_of_table(table: &Table<Dictionary>, name: &Text) -> Option<usize>
    requires { IsGrowing table.now }
    ensures found { IfSome result (λ column.
        slice_get (columns_of (rows_of_table table.now)) column ≡ Some (label name.now)) }
    ensures none { result ≡ None
        → All (λ row. value_of row.row.labels.pairs name.now ≡ None) (rows_of_table table.now) }
{
    match place_of(table.labels.as_slice(), name) {
        Some(place) => Some(place + 11),
        None => None,
    }
}
