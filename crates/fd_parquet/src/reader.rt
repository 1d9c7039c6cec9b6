ghost use Rattle.std.specs.Prelude.{◌≡◌, ◌≢◌, ◌≤◌, ◌<◌, ◌+◌, ◌^◌, ℕ, pos, List, Some, None, Ok, Err, true, false, IfOk, IfErr, IfSome, All, Decides, length, map, option_map};
ghost use Rattle.fd_kinds.specs.declared.row.Numbered.{Numbered};
ghost use Rattle.fd_column.specs.Cells.{columns_of};
ghost use Rattle.fd_footer.specs.Footers.{IsPlaced};
ghost use Rattle.fd_footer.specs.Tables.{total_size};
ghost use Rattle.fd_table_file.specs.Files.{IsFileOf};
ghost use Rattle.fd_footer.specs.declared.footer.Chunk.{Chunk as AnyChunk};
ghost use Rattle.fd_footer.specs.declared.footer.Pages.{Pages as AnyPages};
ghost use Rattle.fd_footer.specs.declared.footer.Pages.TheVariants.{Plain};
ghost use Rattle.fd_footer.specs.declared.table.FooterTable.{FooterTable as AnyTable};
ghost use Rattle.fd_footer.specs.Contents.{have_text_names};
ghost use Rattle.fd_footer.specs.Layout.{are_own};
ghost use Rattle.fd_table_file.specs.Columns.{file_column};
ghost use Rattle.fd_parquet.specs.Refusals.{Refuses, IsRefused, Finds};
ghost use Rattle.fd_parquet.specs.Stages.{HasTable, FitsTable, TellsOf, told_of, IsRead, IsFooterOf, AreParts, RefusesParts, IsPartsFault, IsFooterFault, TellsOrRefuses};
ghost use Rattle.fd_thrift.specs.Values.{Value};
ghost use Rattle.fd_thrift.specs.Format.{Spells};
ghost use Rattle.fd_parquet.specs.declared.fault.FileFault.{FileFault as AnyFault};

use crate::FileFault;
use crate::columns::{ColumnCells, columns_in};
use crate::frame::parts_of;
use crate::rows::part_of;
use fd_column::{ColumnPart, Columns};
use fd_footer::{
    Chunks, FooterFault, FooterTable, Pages, footers_are_read, footers_are_spelled, read_footer,
    write_footer,
};
use fd_kinds::NoMemory;
use fd_pages::CellList;
use fd_table_file::{cells_fit, chunks_are_placed, footer_of, has_cells};
use fd_thrift::one_spelling;
use std::alloc::Global;

/// The table of a file, and the range in which the numbers of its rows lie.
#[derive(Debug, Drop)]
pub struct FileTable {
    pub table: ColumnPart,
    pub lo: u64,
    pub hi: u64,
}

/// A footer has fewer columns, each of which takes two bytes of it at least.
const TOO_MANY_COLUMNS: usize = 0x8000_0000;

/// Numbers are below this.
const TOO_HIGH: u64 = 0x8000_0000_0000_0000;

/// The range that a footer tells, none where it is none for numbers of 63 bits.
fn range_of(told: &FooterTable) -> Option<(u64, u64)>
    ensures found { IfSome result
        (λ r. (told.now.lo ≡ Some r.0) × (told.now.hi ≡ Some r.1) × (r.0 ≤ r.1) × (r.1 < 2 ^ 63)) }
    ensures only { (lo hi : ℕ) → told.now.lo ≡ Some lo → told.now.hi ≡ Some hi → lo ≤ hi
        → hi < 2 ^ 63 → result ≡ Some (lo, hi) }
{
    let lo = told.lo?;
    let hi = told.hi?;
    if hi < lo || hi >= TOO_HIGH {
        return None;
    }
    Some((lo, hi))
}

/// What a footer tells.
fn told_by(alloc: Global, footer: &[u8]) -> Result<FooterTable, FileFault>
    requires { length footer.now < 2 ^ 32 }
    ensures told { IfOk result (λ told. (v : Value) × TellsOf footer.now v told) }
    ensures few { IfOk result (λ told. length told.columns < 2 ^ 31) }
    ensures own { IfOk result (λ told. are_own told.columns ≡ true) }
    ensures refused { IfErr result (IsFooterFault footer.now) }
    ensures only { (v : Value) → Spells footer.now v → TellsOrRefuses v result }
{
    match read_footer(alloc, footer) {
        Ok(told) => Ok(told),
        Err(FooterFault::Footer) => Err(FileFault::Footer),
        Err(FooterFault::Schema) => Err(FileFault::Schema),
        Err(FooterFault::NoMemory) => Err(FileFault::NoMemory),
    }
}

/// The count of rows that a footer tells, none where it is negative.
fn count_of(told: &FooterTable) -> Option<usize>
    ensures found { IfSome result (λ count. (told.now.rows ≡ pos count) × (count < 2 ^ 63)) }
    ensures none { result ≡ None → (count : ℕ) → told.now.rows ≡ pos count → ⊥ }
{
    let Ok(count) = usize::try_from(told.rows) else {
        return None;
    };
    Some(count)
}

/// Whether two lists of bytes are the same.
fn are_same(one: &[u8], other: &[u8]) -> bool
    ensures { Decides result (one.now ≡ other.now) }
{
    one == other
}

/// Whether these bytes are the footer of a table with such pages and these places of its chunks.
fn has_footer(
    alloc: Global,
    pages: Pages,
    table: &ColumnPart,
    lo: u64,
    hi: u64,
    places: Chunks,
    footer: &[u8],
) -> Result<bool, NoMemory>
    requires few { length (columns_of table.now) < 2 ^ 31 }
    requires chunks { length places ≡ length (columns_of table.now) }
    requires placed { All IsPlaced places }
    requires small { total_size places < 2 ^ 63 }
    requires rows { length table.now < 2 ^ 63 }
    ensures { IfOk result
        (λ has. Decides has (IsFooterOf pages footer.now table.now lo hi places)) }
{
    let told = footer_of(alloc, pages, table, lo, hi, places)?;
    if told.columns.len() >= TOO_MANY_COLUMNS {
        unreachable!()
    }
    let expected = write_footer(alloc, &told)?;
    Ok(are_same(expected.as_slice(), footer))
}

/// A footer that tells a table tells that of the rows whose footer it is.
fn footers_tell_their_rows()
    ensures { (footer : List ℕ) (v : Value) (told : AnyTable) (pages : AnyPages)
        (rows : List Numbered) (lo hi : ℕ) (places : List AnyChunk)
        → TellsOf footer v told → IsFooterOf pages footer rows lo hi places
        → length footer < 2 ^ 32 → have_text_names (map file_column (columns_of rows)) ≡ true
        → told ≡ told_of pages rows lo hi }
{
    one_spelling();
    footers_are_read();
    footers_are_spelled();
}

/// Whether a table has these cells and this footer, which tells such pages.
fn fits_table(
    alloc: Global,
    pages: Pages,
    table: &ColumnPart,
    lo: u64,
    hi: u64,
    cells: &[CellList],
    places: Chunks,
    footer: &[u8],
) -> Result<bool, NoMemory>
    requires few { length cells.now < 2 ^ 31 }
    requires chunks { length places ≡ length cells.now }
    requires placed { All IsPlaced places }
    requires small { total_size places < 2 ^ 63 }
    requires rows { length table.now < 2 ^ 63 }
    ensures { IfOk result
        (λ fits. Decides fits (FitsTable pages footer.now cells.now places table.now lo hi)) }
{
    if !has_cells(table, cells) {
        return Ok(false);
    }
    table.utf8();
    has_footer(alloc, pages, table, lo, hi, places, footer)
}

/// The table where it is kept.
fn kept(
    table: ColumnPart,
    lo: u64,
    hi: u64,
    fits: Result<bool, NoMemory>,
) -> Result<Option<FileTable>, NoMemory>
    ensures found { IfOk result
        (λ file. IfSome file
        (λ f. (fits ≡ Ok true) × (f.table ≡ table) × (f.lo ≡ lo) × (f.hi ≡ hi))) }
    ensures none { IfOk result (λ file. file ≡ None → fits ≡ Ok false) }
{
    if fits? {
        Ok(Some(FileTable { table, lo, hi }))
    } else {
        Ok(None)
    }
}

/// The table of the rows with these cells, none where its file has another footer than this one.
fn table_of(
    alloc: Global,
    told: &FooterTable,
    read: ColumnCells,
    count: usize,
    footer: &[u8],
) -> Result<Option<FileTable>, NoMemory>
    requires told { (v : Value) × TellsOf footer.now v told.now }
    requires short { length footer.now < 2 ^ 32 }
    requires few { length told.now.columns < 2 ^ 31 }
    requires own { are_own told.now.columns ≡ true }
    requires read { IsRead told.now count read.cells read.places }
    // A table has these cells, the range and the footer.
    ensures found { IfOk result
        (λ r. IfSome r
        (λ file. HasTable told.now read.cells read.places footer.now file.table file.lo file.hi)) }
    // Rows that have them are found, unless memory runs out.
    ensures only { (rows : List Numbered) (lo hi : ℕ)
        → HasTable told.now read.cells read.places footer.now rows lo hi → length rows ≡ count
        → IfOk result (λ r. option_map {U = List Numbered × ℕ × ℕ}
        (λ file. (file.table, file.lo, file.hi)) r ≡ Some (rows, lo, hi)) }
{
    footers_tell_their_rows();
    chunks_are_placed();
    cells_fit();
    let ColumnCells { cells, places } = read;
    let Some((lo, hi)) = range_of(told) else {
        return Ok(None);
    };
    let columns = told.columns.as_slice();
    let Some(table) = part_of(alloc, columns, cells.as_slice(), count, lo, hi)? else {
        return Ok(None);
    };
    let fits = fits_table(
        alloc,
        told.pages,
        &table,
        lo,
        hi,
        cells.as_slice(),
        places,
        footer,
    );
    kept(table, lo, hi, fits)
}

/// The table of a file with these chunks and this footer, which tells this.
fn file_of(
    alloc: Global,
    told: &FooterTable,
    body: &[u8],
    footer: &[u8],
) -> Result<FileTable, FileFault>
    requires told { (v : Value) × TellsOf footer.now v told.now }
    requires short { length footer.now < 2 ^ 32 }
    requires few { length told.now.columns < 2 ^ 31 }
    requires own { are_own told.now.columns ≡ true }
    requires within { 4 + length body.now < 2 ^ 63 }
    ensures found { IfOk result
        (λ file. AreParts Plain body.now footer.now file.table file.lo file.hi) }
    ensures only { (rows : List Numbered) (lo hi : ℕ)
        → AreParts Plain body.now footer.now rows lo hi
        → Finds {Y = List Numbered × ℕ × ℕ}
        (λ file. (file.table, file.lo, file.hi)) result (rows, lo, hi) }
    ensures refused { IfErr result (IsPartsFault body.now footer.now told.now) }
    ensures refused_only { (k : ℕ) → RefusesParts body.now footer.now told.now told.now.rows k
        → IsRefused (FileFault.Page k) result }
{
    footers_tell_their_rows();
    let Some(count) = count_of(told) else {
        return Err(FileFault::Page { column: 0 });
    };
    let (read, rest) = match columns_in(alloc, body, told.pages, told.columns.as_slice(), count) {
        Ok(found) => found,
        Err(fault) => return Err(fault),
    };
    let last = FileFault::Page {
        column: told.columns.len() as u64,
    };
    if !rest.is_empty() {
        return Err(last);
    }
    match table_of(alloc, told, read, count, footer)? {
        Some(table) => Ok(table),
        None => Err(last),
    }
}

/// Reads the file of a table (parquet-format, `README.md`, "File format") as `write_file` writes
/// it, and refuses other bytes by the first fault that holds (`FileFault`). No count, length or
/// place that the bytes claim makes it take memory: each page and text has to be there.
pub fn read_file(alloc: Global, bytes: &[u8]) -> Result<FileTable, FileFault>
    // What is read has this file, with plain pages.
    ensures found { IfOk result (λ file. IsFileOf Plain bytes.now file.table file.lo file.hi) }
    // The table of each file with plain pages is read, unless memory runs out.
    ensures only { (rows : List Numbered) (lo hi : ℕ) → IsFileOf Plain bytes.now rows lo hi
        → Finds {Y = List Numbered × ℕ × ℕ}
        (λ file. (file.table, file.lo, file.hi)) result (rows, lo, hi) }
    // Other bytes are refused by the one fault that is theirs, unless memory runs out.
    ensures refused { IfErr result (λ fault. fault ≢ FileFault.NoMemory → Refuses bytes.now fault) }
    ensures refused_only { (fault : AnyFault) → Refuses bytes.now fault → IsRefused fault result }
{
    footers_are_read();
    footers_are_spelled();
    let (body, footer) = parts_of(bytes)?;
    let told = told_by(alloc, footer)?;
    file_of(alloc, &told, body, footer)
}
