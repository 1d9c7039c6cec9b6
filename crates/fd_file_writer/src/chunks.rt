ghost use Rattle.std.specs.Prelude.{◌≡◌, ◌+◌, ◌-◌, ◌<◌, ◌≤◌, length, IfOk, OnOk, slice_range};
ghost use Rattle.fd_column.specs.Cells.{columns_of};
ghost use Rattle.fd_pages.specs.declared.cell.TheConstants.{MAX_ROWS};
ghost use Rattle.fd_footer.specs.declared.footer.Pages.TheVariants.{Plain};
ghost use Rattle.fd_table_file.specs.Columns.{column_count, column_at};
ghost use Rattle.fd_table_file.specs.Chunks.{AddsPageOf, AddsPagesOf};
ghost use Rattle.fd_table_file.specs.Files.{magic, plain_chunk_at, IsSmall, HasChunks};

use fd_column::{ColumnPart, Columns};
use fd_footer::{Chunk, Chunks};
use fd_kinds::{Bytes, Items, NoMemory};
use fd_pages::{Cells, MAX_ROWS, levels_are_short, write_page};
use fd_table_file::{
    cells_have_kinds, cells_of, chunks_are_placed, columns_have_places, is_required, kind_of,
};

/// Adds the page of the `count` rows from the place `from` on in a column.
fn add_page(
    table: &ColumnPart,
    column: usize,
    from: usize,
    count: usize,
    out: &mut Bytes,
) -> Result<(), NoMemory>
    requires column { column < column_count table.now }
    requires some { 0 < count }
    requires few { count ≤ MAX_ROWS }
    requires within { from + count ≤ length table.now }
    requires small { IsSmall table.now }
    ensures { OnOk result
        (AddsPageOf table.now (column_at table.now column) from count out.old out.new) }
{
    levels_are_short();
    cells_have_kinds();
    let kind = kind_of(table, column);
    let required = is_required(table, column);
    let cells = cells_of(out.allocator(), table, column, from, count)?;
    let cells = Cells {
        kind,
        required,
        cells,
    };
    write_page(&cells, 0, count, out)
}

/// Adds the data pages of a column with its values: each of 1,000 rows, and the last of what
/// remains.
#[tactic(auto, using(crate::proofs::ChunkPages::continues_none, crate::proofs::ChunkPages::continues_more, crate::proofs::ChunkPages::continues_all, crate::proofs::ChunkPages::cells_count))]
fn add_pages(table: &ColumnPart, column: usize, out: &mut Bytes) -> Result<(), NoMemory>
    requires column { column < column_count table.now }
    requires small { IsSmall table.now }
    ensures { OnOk result (AddsPagesOf table.now (column_at table.now column) out.old out.new) }
{
    let count = table.len();
    let mut from = 0;
    while from < count {
        let size = (count - from).min(MAX_ROWS);
        add_page(table, column, from, size, out)?;
        from += size;
    }
    Ok(())
}

/// Adds the chunk of a column, which has no dictionary, and tells where it stands.
#[tactic(auto, using(crate::proofs::FileLaws::pages_longer))]
fn add_placed(table: &ColumnPart, column: usize, out: &mut Bytes) -> Result<Chunk, NoMemory>
    requires column { column < column_count table.now }
    requires small { IsSmall table.now }
    ensures added { OnOk result
        (AddsPagesOf table.now (column_at table.now column) out.old out.new) }
    ensures placed { IfOk result
        (λ chunk. chunk ≡ plain_chunk_at (length out.old) (length out.new - length out.old)) }
{
    let place = out.len();
    add_pages(table, column, out)?;
    let size = out.len() - place;
    Ok(Chunk {
        place: place as u64,
        size: size as u64,
        data_page: place as u64,
    })
}

/// Adds the chunks of all columns with plain pages, and tells where they stand.
#[tactic(auto, using(crate::proofs::FileLaws::chunks_none, crate::proofs::FileLaws::chunks_more, crate::proofs::FileLaws::chunks_all), unfolding(fd_table_file::specs::Columns::column_count))]
pub(crate) fn add_chunks(table: &ColumnPart, out: &mut Bytes) -> Result<Chunks, NoMemory>
    requires magic { out.old ≡ magic }
    requires small { IsSmall table.now }
    ensures { IfOk result
        (λ places. HasChunks Plain table.now (columns_of table.now) out.new places) }
{
    columns_have_places();
    chunks_are_placed();
    table.utf8();
    table.short();
    let mut places = Items::new(out.allocator());
    for column in 0..table.names().len() {
        places.push(add_placed(table, column, out)?)?;
    }
    Ok(places)
}
