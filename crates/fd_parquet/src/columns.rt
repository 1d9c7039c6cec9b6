ghost use Rattle.std.specs.Prelude.{◌≡◌, ◌≤◌, ◌+◌, ◌-◌, ℕ, List, IfOk, IfErr, Ok, length};
ghost use Rattle.fd_pages.specs.declared.cell.Cell.{Cell as AnyCell};
ghost use Rattle.fd_pages.specs.Pages.{SeenGives};
ghost use Rattle.fd_footer.specs.declared.footer.Chunk.{Chunk as AnyChunk};
ghost use Rattle.fd_table_file.specs.Files.{magic, plain_chunk_at};
ghost use Rattle.fd_parquet.specs.Refusals.{BeginsChunk, BeginsColumns, FailsAt, IsRefused, Finds};
ghost use Rattle.fd_parquet.specs.Stages.{IsFailure};

use crate::FileFault;
use crate::contents::have_texts;
use crate::pages::chunk_in;
use fd_footer::{Chunk, Chunks, Column, Pages, has_dictionary};
use fd_kinds::Items;
use fd_pages::{CellList, PageFault};
use fd_table_file::{chunks_are_placed, kind_in};
use std::alloc::Global;

/// The cells of columns that were read, and where their chunks stand in the file.
#[derive(Debug, Drop)]
pub(crate) struct ColumnCells {
    pub(crate) cells: Items<CellList>,
    pub(crate) places: Chunks,
}

/// The place of the first chunk, behind the magic.
const FIRST_PLACE: u64 = 4;

/// The `count` cells of a column whose chunk stands in front of the bytes, and the bytes behind it.
fn column_in<'a>(
    alloc: Global,
    bytes: &'a [u8],
    pages: Pages,
    column: &Column,
    count: usize,
) -> Result<(CellList, &'a [u8]), PageFault>
    ensures found { IfOk result (λ r. BeginsChunk pages column.now count bytes.now r.0 r.1.now) }
    ensures only { (cells : List AnyCell) (rest : List ℕ)
        → BeginsChunk pages column.now count bytes.now cells rest
        → SeenGives {Y = List AnyCell × List ℕ} (λ r. (r.0, r.1.now)) result (Ok (cells, rest)) }
{
    if has_dictionary(pages, column.column_type) {
        return Err(PageFault::BadPage);
    }
    let kind = kind_in(column.column_type);
    let (cells, rest) = chunk_in(alloc, bytes, kind, column.required, count)?;
    if !have_texts(column, cells.as_slice()) {
        return Err(PageFault::BadPage);
    }
    Ok((cells, rest))
}

/// The column whose bytes are no chunk of its cells.
fn fault_at(column: usize, fault: PageFault) -> FileFault
    ensures bad { fault ≡ PageFault.BadPage → result ≡ FileFault.Page column }
    ensures memory { fault ≡ PageFault.NoMemory → result ≡ FileFault.NoMemory }
{
    match fault {
        PageFault::BadPage => FileFault::Page {
            column: column as u64,
        },
        PageFault::NoMemory => FileFault::NoMemory,
    }
}

/// Where a chunk without a dictionary stands in the file: it begins with `rest`, and ends before
/// `behind`.
fn placed(bytes: &[u8], rest: &[u8], behind: &[u8]) -> Chunk
    requires begin { length rest.now ≤ length bytes.now }
    requires end { length behind.now ≤ length rest.now }
    ensures { result
        ≡ plain_chunk_at (4 + (length bytes.now - length rest.now))
        (length rest.now - length behind.now) }
{
    let place = FIRST_PLACE + (bytes.len() - rest.len()) as u64;
    Chunk {
        place,
        size: (rest.len() - behind.len()) as u64,
        data_page: place,
    }
}

/// The cells of columns whose chunks follow each other, and the bytes behind them.
pub(crate) fn columns_in<'a>(
    alloc: Global,
    bytes: &'a [u8],
    pages: Pages,
    columns: &[Column],
    count: usize,
) -> Result<(ColumnCells, &'a [u8]), FileFault>
    ensures found { IfOk result
        (λ r. BeginsColumns pages count (length magic) columns.now bytes.now
        r.0.cells r.0.places r.1.now) }
    ensures only { (cells : List (List AnyCell)) (places : List AnyChunk) (rest : List ℕ)
        → BeginsColumns pages count (length magic) columns.now bytes.now cells places rest
        → Finds {Y = (List (List AnyCell) × List AnyChunk) × List ℕ}
        (λ r. ((r.0.cells, r.0.places), r.1.now)) result ((cells, places), rest) }
    ensures fails { IfErr result (IsFailure pages columns.now count bytes.now) }
    ensures fails_only { (k : ℕ) → FailsAt pages columns.now count bytes.now k
        → IsRefused (FileFault.Page k) result }
{
    chunks_are_placed();
    let mut cells = Items::new(alloc);
    let mut places = Items::new(alloc);
    let mut rest = bytes;
    for (at, column) in columns.iter().enumerate() {
        let (read, behind) = match column_in(alloc, rest, pages, column, count) {
            Ok(found) => found,
            Err(fault) => return Err(fault_at(at, fault)),
        };
        places.push(placed(bytes, rest, behind))?;
        cells.push(read)?;
        rest = behind;
    }
    Ok((ColumnCells { cells, places }, rest))
}
