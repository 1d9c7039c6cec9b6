ghost use Rattle.std.specs.Prelude.{◌≡◌, ◌+◌, [], ◌∷◌, ◌<◌, ◌≤◌, ◌^◌, ℕ, List, length, map, slice_range, All, Contains, IfOk, OnOk, OnErr, Ok, Err};
ghost use Rattle.std.specs.List.{HoldsAt};
ghost use Rattle.fd_pages.specs.declared.cell.CellKind.TheVariants.{Bytes as BytesKind};
ghost use Rattle.fd_pages.specs.declared.cell.Cell.{Cell as AnyCell};
ghost use Rattle.fd_pages.specs.declared.cell.TheConstants.{MAX_ROWS};
ghost use Rattle.fd_pages.specs.Columns.{IsOfColumn};
ghost use Rattle.fd_pages.specs.Dictionaries.{AreRising, texts_in, IsCodePage};
ghost use Rattle.fd_pages.specs.Pages.{Gives};
ghost use Rattle.fd_codes.specs.Picks.{picked_cell, picked_cells, IsPick};
ghost use Rattle.fd_codes.specs.Places.{Adds, IsCodePageAt, HasCodePage};

use crate::Picks;
use crate::pick_pages::{read_picks, write_picks};
use fd_lists::{Bytes, Items, NoMemory};
use fd_pages::{Cell, CellKind, CellList, Cells, PageFault};
use std::alloc::Global;

/// The index of a text among rising ones, of which it is one.
fn index_of(texts: &[&[u8]], text: &[u8]) -> usize
    requires rising { AreRising (map (λ t. t.now) texts.now) }
    requires known { Contains (map (λ t. t.now) texts.now) text.now }
    ensures within { result < length texts.now }
    ensures found { HoldsAt (λ other. other ≡ text.now) (map (λ t. t.now) texts.now) result }
{
    match texts.binary_search(&text) {
        Ok(index) => index,
        Err(_) => unreachable!(),
    }
}

/// The pick of a cell.
fn pick_of(cell: &Cell, texts: &[&[u8]], required: bool) -> u32
    requires column { IsOfColumn CellKind.Bytes required cell.now }
    requires rising { AreRising (map (λ t. t.now) texts.now) }
    requires few { length texts.now < 2 ^ 31 }
    requires known { All (Contains (map (λ t. t.now) texts.now)) (texts_in (cell.now ∷ [])) }
    ensures cell { picked_cell (map (λ t. t.now) texts.now) result ≡ cell.now }
    ensures within { IsPick required (length texts.now) result }
{
    match cell {
        Cell::Absent => 0,
        Cell::Bytes(bytes) => index_of(texts, bytes.as_slice()) as u32 + 1,
        Cell::Whole(_) => unreachable!(),
    }
}

/// The picks of cells.
fn picks_of(
    alloc: Global,
    cells: &[Cell],
    texts: &[&[u8]],
    required: bool,
) -> Result<Picks, NoMemory>
    requires column { All (IsOfColumn CellKind.Bytes required) cells.now }
    requires rising { AreRising (map (λ t. t.now) texts.now) }
    requires few { length texts.now < 2 ^ 31 }
    requires known { All (Contains (map (λ t. t.now) texts.now)) (texts_in cells.now) }
    ensures cells { IfOk result
        (λ picks. picked_cells (map (λ t. t.now) texts.now) picks ≡ cells.now) }
    ensures within { IfOk result (λ picks. All (IsPick required (length texts.now)) picks) }
{
    let mut picks = Picks::new(alloc);
    for cell in cells {
        picks.push(pick_of(cell, texts, required))?;
    }
    Ok(picks)
}

/// Adds the page of the `count` cells from the place `from` on, with the indexes of their texts
/// among `texts`, which rise by their bytes (Apache Parquet, `Encodings.md`, "Dictionary
/// Encoding"). A page has at most 1,000 cells. Where memory is wanting, `out` stays as it was.
pub fn write_code_page(
    cells: &Cells,
    texts: &[&[u8]],
    from: usize,
    count: usize,
    out: &mut Bytes,
) -> Result<(), NoMemory>
    requires some { 0 < count }
    requires few { count ≤ MAX_ROWS }
    requires within { from + count ≤ length cells.now.cells }
    requires column { All (IsOfColumn CellKind.Bytes cells.now.required)
        (slice_range cells.now.cells from (from + count)) }
    requires rising { AreRising (map (λ t. t.now) texts.now) }
    requires small { length texts.now < 2 ^ 31 }
    requires known { All (Contains (map (λ t. t.now) texts.now))
        (texts_in (slice_range cells.now.cells from (from + count))) }
    ensures ok { OnOk result (Adds (IsCodePage cells.now.required (map (λ t. t.now) texts.now)
        (slice_range cells.now.cells from (from + count))) out.old out.new) }
    ensures err { OnErr result (out.new ≡ out.old) }
{
    let range = &cells.cells.as_slice()[from..from + count];
    let picks = picks_of(out.allocator(), range, texts, cells.required)?;
    write_picks(picks.as_slice(), cells.required, texts.len(), out)
}

/// The cell that a pick stands for.
fn cell_of(alloc: Global, texts: &[&[u8]], pick: u32) -> Result<Cell, NoMemory>
    requires { pick ≤ length texts.now }
    ensures { IfOk result (λ cell. cell ≡ picked_cell (map (λ t. t.now) texts.now) pick) }
{
    if pick == 0 {
        return Ok(Cell::Absent);
    }
    let text = texts[pick as usize - 1];
    Ok(Cell::Bytes(Bytes::from_slice(alloc, text)?))
}

/// The cells that picks stand for.
fn cells_of(alloc: Global, texts: &[&[u8]], picks: &[u32]) -> Result<CellList, NoMemory>
    requires { All (λ pick. pick ≤ length texts.now) picks.now }
    ensures { IfOk result (λ cells. cells ≡ picked_cells (map (λ t. t.now) texts.now) picks.now) }
{
    let mut cells = Items::new(alloc);
    for pick in picks {
        cells.push(cell_of(alloc, texts, *pick)?)?;
    }
    Ok(cells)
}

/// Reads the page of `count` cells with indexes of these texts that stands at the place `at`, and
/// the place behind it, as `write_code_page` writes it. Other bytes may follow there. Each cell has
/// a copy of its text: whoever wants none reads `read_picks`. Places count bytes.
pub fn read_code_page(
    alloc: Global,
    bytes: &[u8],
    at: usize,
    texts: &[&[u8]],
    required: bool,
    count: usize,
) -> Result<(Cells, usize), PageFault>
    requires within { at ≤ length bytes.now }
    requires small { length texts.now < 2 ^ 31 }
    // What is read is spelled so.
    ensures found { IfOk result (λ r. IsCodePageAt required (map (λ t. t.now) texts.now) count
        bytes.now at r.0.cells r.1) }
    ensures column { IfOk result
        (λ r. (r.0.kind ≡ CellKind.Bytes) × (r.0.required ≡ required)) }
    // What is spelled so is read, unless memory runs out.
    ensures only { (cells : List AnyCell) (end : ℕ)
        → IsCodePageAt required (map (λ t. t.now) texts.now) count bytes.now at cells end
        → Gives result
        (Ok (record { kind = CellKind.Bytes; required = required; cells = cells }, end)) }
    // A page is bad exactly where there is none.
    ensures bad { result ≡ Err PageFault.BadPage
        → ¬ HasCodePage required (map (λ t. t.now) texts.now) count bytes.now at }
    ensures bad_only { (¬ HasCodePage required (map (λ t. t.now) texts.now) count bytes.now at)
        → Gives result (Err PageFault.BadPage) }
{
    let (picks, end) = read_picks(alloc, bytes, at, texts.len(), required, count)?;
    let cells = Cells {
        kind: CellKind::Bytes,
        required,
        cells: cells_of(alloc, texts, picks.as_slice())?,
    };
    Ok((cells, end))
}
