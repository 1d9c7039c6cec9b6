ghost use Rattle.std.specs.Prelude.{◌≡◌, ◌+◌, ◌<◌, ◌≤◌, Some, IfOk, length, slice_get, slice_range};
ghost use Rattle.fd_table_file.specs.Columns.{column_count, cells_of as cells_of_column, column_at, is_required as is_required_column, kind_in as kind_in_column, kind_of as kind_of_column};

use crate::footer::type_of;
use fd_column::{ColumnPart, Columns};
use fd_footer::ColumnType;
use fd_kinds::{Bytes, Items, NoMemory};
use fd_pages::{Cell, CellKind, CellList};
use std::alloc::Global;

/// How many columns are required, those of labels behind them being optional.
const FIXED_COLUMNS: usize = 11;

/// The cells that a physical type has.
pub fn kind_in(column_type: ColumnType) -> CellKind
    ensures { result ≡ kind_in_column column_type }
{
    match column_type {
        ColumnType::Int64 => CellKind::Whole,
        ColumnType::ByteArray => CellKind::Bytes,
    }
}

/// What the cells of a column are.
pub fn kind_of(table: &ColumnPart, column: usize) -> CellKind
    requires { column < column_count table.now }
    ensures { result ≡ kind_of_column (column_at table.now column) }
{
    kind_in(type_of(table, column))
}

/// Whether each row has a value in a column.
#[tactic(auto, using(crate::proofs::ColumnLaws::required_at))]
pub fn is_required(table: &ColumnPart, column: usize) -> bool
    requires { column < column_count table.now }
    ensures { result ≡ is_required_column (column_at table.now column) }
{
    let _names = table.names();
    column < FIXED_COLUMNS
}

/// The cell of a row in a column.
#[tactic(auto, using(crate::proofs::ColumnLaws::text_there, crate::proofs::ColumnLaws::whole_there, crate::proofs::ColumnLaws::absent_there), unfolding(crate::specs::Columns::column_count))]
fn cell_of(alloc: Global, table: &ColumnPart, column: usize, at: usize) -> Result<Cell, NoMemory>
    requires column { column < column_count table.now }
    requires at { at < length table.now }
    ensures { IfOk result
        (λ cell. slice_get (cells_of_column (column_at table.now column) table.now) at
        ≡ Some cell) }
{
    if let Some(text) = table.text(column, at) {
        return Ok(Cell::Bytes(Bytes::from_slice(alloc, text)?));
    }
    match table.whole(column, at) {
        Some(number) => Ok(Cell::Whole(number)),
        None => Ok(Cell::Absent),
    }
}

/// The cells of the `count` rows from the place `from` on in a column.
#[tactic(auto, using(crate::proofs::ColumnLaws::part_more, crate::proofs::ColumnLaws::part_none))]
pub fn cells_of(
    alloc: Global,
    table: &ColumnPart,
    column: usize,
    from: usize,
    count: usize,
) -> Result<CellList, NoMemory>
    requires column { column < column_count table.now }
    requires within { from + count ≤ length table.now }
    ensures { IfOk result (λ cells.
        cells ≡ slice_range (cells_of_column (column_at table.now column) table.now)
        from (from + count)) }
{
    let _rows = table.len();
    let mut cells = Items::new(alloc);
    for at in from..from + count {
        let cell = cell_of(alloc, table, column, at)?;
        cells.push(cell)?;
    }
    Ok(cells)
}
