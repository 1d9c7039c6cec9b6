ghost use Rattle.std.specs.Prelude.{◌≡◌, ◌<◌, map, IfOk};
ghost use Rattle.fd_column.specs.Cells.{columns_of as columns_of_rows, column_name};
ghost use Rattle.fd_table_file.specs.Columns.{column_count, column_at, file_column, type_of as type_of_column};
ghost use Rattle.fd_table_file.specs.Files.{footer_at};

use crate::cells::is_required;
use fd_column::{ColumnPart, Columns as TableColumns};
use fd_footer::{Chunks, Column, ColumnType, Columns, Footer, Pages};
use fd_kinds::{Items, NoMemory, Text};
use std::alloc::Global;

/// What the cells of a column hold.
#[tactic(auto, using(crate::proofs::ColumnLaws::type_there))]
pub(crate) fn type_of(table: &ColumnPart, column: usize) -> ColumnType
    requires { column < column_count table.now }
    ensures { result ≡ type_of_column (column_at table.now column) }
{
    match table.dictionary(column) {
        Some(_) => ColumnType::ByteArray,
        None => ColumnType::Int64,
    }
}

/// The column with this name at a place, as the footer tells it.
fn column_of(
    alloc: Global,
    table: &ColumnPart,
    name: &Text,
    column: usize,
) -> Result<Column, NoMemory>
    requires column { column < column_count table.now }
    requires name { name.now ≡ column_name (column_at table.now column) }
    ensures { IfOk result (λ c. c ≡ file_column (column_at table.now column)) }
{
    Ok(Column {
        name: Text::of(alloc, name.as_str())?,
        column_type: type_of(table, column),
        required: is_required(table, column),
    })
}

/// The columns as the footer tells them.
#[tactic(auto, using(crate::proofs::ColumnPlaces::name_there, crate::proofs::ColumnPlaces::file_columns_more, crate::proofs::ColumnPlaces::file_columns_all), unfolding(crate::specs::Columns::column_count))]
fn columns_of(alloc: Global, table: &ColumnPart) -> Result<Columns, NoMemory>
    ensures { IfOk result (λ columns. columns ≡ map file_column (columns_of_rows table.now)) }
{
    let names = table.names().as_slice();
    let mut columns = Items::new(alloc);
    for (at, name) in names.iter().enumerate() {
        columns.push(column_of(alloc, table, name, at)?)?;
    }
    Ok(columns)
}

/// The footer of the file of a table with pages of this kind, whose chunks stand in these places. A
/// table without rows has no chunks, and its places are left out.
pub fn footer_of(
    alloc: Global,
    pages: Pages,
    table: &ColumnPart,
    lo: u64,
    hi: u64,
    places: Chunks,
) -> Result<Footer, NoMemory>
    ensures { IfOk result (λ footer. footer ≡ footer_at pages table.now lo hi places) }
{
    let columns = columns_of(alloc, table)?;
    let rows = table.len();
    let chunks = if rows == 0 { Items::new(alloc) } else { places };
    Ok(Footer {
        pages,
        lo,
        hi,
        rows: rows as u64,
        columns,
        chunks,
    })
}
