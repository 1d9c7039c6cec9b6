ghost use Rattle.std.specs.Prelude.{◌≡◌, ◌+◌, ◌<◌, ◌^◌, ℕ, Bool, List, [], All, length};
ghost use Rattle.fd_kinds.specs.declared.row.Numbered.{Numbered};
ghost use Rattle.fd_column.specs.Cells.{Column};
ghost use Rattle.fd_pages.specs.declared.cell.CellKind.{CellKind as Kind};
ghost use Rattle.fd_pages.specs.declared.cell.Cell.{Cell};
ghost use Rattle.fd_pages.specs.Columns.{IsOfColumn, Fits};
ghost use Rattle.fd_footer.specs.declared.footer.Pages.{Pages};
ghost use Rattle.fd_footer.specs.Footers.{IsPlaced};
ghost use Rattle.fd_footer.specs.Tables.{total_size};
ghost use Rattle.fd_table_file.specs.Columns.{kind_of, is_required, cells_of, ColumnsHavePlaces};
ghost use Rattle.fd_table_file.specs.Chunks.{Pieces, piece_bytes, IsChunk};
ghost use Rattle.fd_table_file.specs.Files.{IsFileOf, chunk_at, plain_chunk_at, places_from, chunk_bytes};

use fd_footer::{footers_are_spelled, one_footer};
use fd_hybrid::one_spelling;
use fd_pages::{one_code_page, one_coding, one_dictionary, one_page};

/// A table has one file for each range and each kind of pages.
pub fn one_file()
    ensures { (pages : Pages) (rows : List Numbered) (lo hi : ℕ) (a b : List ℕ)
        → IsFileOf pages a rows lo hi → IsFileOf pages b rows lo hi → a ≡ b }
{
    one_spelling();
    one_coding();
}

/// No bytes are the files of two tables, nor of one table in two ranges or with pages of two kinds.
pub fn one_table()
    ensures { (pages kinds : Pages) (bytes : List ℕ)
        (rows others : List Numbered) (lo hi low high : ℕ)
        → IsFileOf pages bytes rows lo hi → IsFileOf kinds bytes others low high
        → (pages ≡ kinds) × (rows ≡ others) × (lo ≡ low) × (hi ≡ high) }
{
    one_page();
    one_dictionary();
    one_code_page();
    one_footer();
    footers_are_spelled();
}

/// The columns of a table by their places: those before a place and one more, all of them, and
/// their names.
pub fn columns_have_places()
    ensures { ColumnsHavePlaces }
{}

/// The cells of a column are of the kind that its physical type has, and absent ones stand only in
/// optional columns.
pub fn cells_have_kinds()
    ensures { (c : Column) (rows : List Numbered)
        → All (IsOfColumn (kind_of c) (is_required c)) (cells_of c rows) }
{}

/// Chunks that follow each other from a place on: a place for each, which is a number of 64 bits
/// with a sign where the end of the last one is, and together their bytes. The first data page of
/// one without a dictionary stands where it does.
pub fn chunks_are_placed()
    ensures count { (at : ℕ) (chunks : List Pieces)
        → length (places_from at chunks) ≡ length chunks }
    ensures fit { (at : ℕ) (chunks : List Pieces) → at + length (chunk_bytes chunks) < 2 ^ 63
        → All IsPlaced (places_from at chunks) }
    ensures sizes { (at : ℕ) (chunks : List Pieces)
        → total_size (places_from at chunks) ≡ length (chunk_bytes chunks) }
    ensures plain { (at : ℕ) (chunk : Pieces) → chunk.dictionary ≡ []
        → chunk_at at chunk ≡ plain_chunk_at at (length (piece_bytes chunk)) }
{}

/// The cells of a chunk fit the lengths that its pages tell, with a dictionary or without.
pub fn cells_fit()
    ensures { (dictionary : Bool) (kind : Kind) (required : Bool) (cells : List Cell)
        (chunk : Pieces) → IsChunk dictionary kind required cells chunk → All Fits cells }
{}
