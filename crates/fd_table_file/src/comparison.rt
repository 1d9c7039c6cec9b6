ghost use Rattle.std.specs.Prelude.{◌≡◌, ◌<◌, Some, None, Decides, length, map, slice_get};
ghost use Rattle.std.specs.Option.{option_copied};
ghost use Rattle.fd_column.specs.Cells.{columns_of};
ghost use Rattle.fd_table_file.specs.Columns.{column_count, cells_of, column_at};

use fd_column::{ColumnPart, Columns};
use fd_pages::{Cell, CellList};

/// Whether there is neither a text nor a number.
fn is_absent(text: Option<&[u8]>, whole: Option<i64>) -> bool
    ensures { Decides result ((option_copied text.entry ≡ None) × (whole ≡ None)) }
{
    match text {
        Some(_) => false,
        None => whole.is_none(),
    }
}

/// Whether there is this number.
fn is_whole(whole: Option<i64>, number: &i64) -> bool
    ensures { Decides result (whole ≡ Some number.now) }
{
    match whole {
        Some(there) => there == *number,
        None => false,
    }
}

/// Whether there are these bytes.
fn is_bytes(text: Option<&[u8]>, bytes: &[u8]) -> bool
    ensures { Decides result (option_copied text.entry ≡ Some bytes.now) }
{
    match text {
        Some(there) => there == bytes,
        None => false,
    }
}

/// Whether a row of a table has this cell in a column.
#[tactic(auto, using(crate::proofs::Comparisons::absent_decided, crate::proofs::Comparisons::whole_decided, crate::proofs::Comparisons::bytes_decided), unfolding(crate::specs::Columns::column_count))]
fn has_cell(table: &ColumnPart, column: usize, at: usize, cell: &Cell) -> bool
    requires column { column < column_count table.now }
    requires at { at < length table.now }
    ensures { Decides result
        (slice_get (cells_of (column_at table.now column) table.now) at ≡ Some cell.now) }
{
    match cell {
        Cell::Absent => is_absent(table.text(column, at), table.whole(column, at)),
        Cell::Whole(number) => is_whole(table.whole(column, at), number),
        Cell::Bytes(bytes) => is_bytes(table.text(column, at), bytes.as_slice()),
    }
}

/// Whether the rows of a table have these cells in a column, one for each.
#[tactic(auto, using(crate::proofs::Comparisons::other_length))]
fn has_column(table: &ColumnPart, column: usize, cells: &[Cell]) -> bool
    requires { column < column_count table.now }
    ensures { Decides result (cells.now ≡ cells_of (column_at table.now column) table.now) }
{
    if cells.len() != table.len() {
        return false;
    }
    for (at, cell) in cells.iter().enumerate() {
        if !has_cell(table, column, at, cell) {
            return false;
        }
    }
    true
}

/// Whether these are the cells of a table, column by column.
#[tactic(auto, using(crate::proofs::Comparisons::other_count), unfolding(crate::specs::Columns::column_count))]
pub fn has_cells(table: &ColumnPart, cells: &[CellList]) -> bool
    ensures { Decides result (cells.now ≡ map (λ c. cells_of c table.now) (columns_of table.now)) }
{
    if cells.len() != table.names().len() {
        return false;
    }
    for (column, list) in cells.iter().enumerate() {
        if !has_column(table, column, list.as_slice()) {
            return false;
        }
    }
    true
}
