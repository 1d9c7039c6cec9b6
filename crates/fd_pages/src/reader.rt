ghost use Rattle.std.specs.Prelude.{◌≡◌, ◌<◌, ◌≤◌, ◌^◌, ℕ, true, false, List, length, IfOk, Ok, Err};
ghost use Rattle.fd_pages.specs.declared.cell.Cell.{Cell as AnyCell};
ghost use Rattle.fd_pages.specs.Pages.{IsBody, IsPageAt, BeginsPage, HasPage, Gives, SeenGives};
ghost use Rattle.fd_pages.specs.Reader.{AreCells};

use crate::header::header_of;
use crate::levels::levels_in;
use crate::plain::{all_cells, all_values, sized_of};
use crate::{CellKind, CellList, Cells, MAX_ROWS, PageFault};
use std::alloc::Global;

/// The `count` cells of a required column whose page has this body.
fn required_cells(
    alloc: Global,
    body: &[u8],
    kind: CellKind,
    count: usize,
) -> Result<CellList, PageFault>
    ensures found { IfOk result
        (λ cells. AreCells kind true count cells × IsBody true cells body.now) }
    ensures only { (cells : List AnyCell) → AreCells kind true count cells
        → IsBody true cells body.now → Gives result (Ok cells) }
{
    all_values(alloc, kind, count, body)
}

/// The `count` cells of an optional column whose page has this body.
fn optional_cells(
    alloc: Global,
    body: &[u8],
    kind: CellKind,
    count: usize,
) -> Result<CellList, PageFault>
    requires { length body.now < 2 ^ 31 }
    ensures found { IfOk result
        (λ cells. AreCells kind false count cells × IsBody false cells body.now) }
    ensures only { (cells : List AnyCell) → AreCells kind false count cells
        → IsBody false cells body.now → Gives result (Ok cells) }
{
    let (runs, values) = sized_of(body)?;
    let levels = levels_in(alloc, runs, count)?;
    all_cells(alloc, kind, levels.as_slice(), values)
}

/// The `count` cells of a column whose page has this body.
fn cells_in(
    alloc: Global,
    body: &[u8],
    kind: CellKind,
    required: bool,
    count: usize,
) -> Result<CellList, PageFault>
    requires { length body.now < 2 ^ 31 }
    ensures found { IfOk result
        (λ cells. AreCells kind required count cells × IsBody required cells body.now) }
    ensures only { (cells : List AnyCell) → AreCells kind required count cells
        → IsBody required cells body.now → Gives result (Ok cells) }
{
    if required {
        required_cells(alloc, body, kind, count)
    } else {
        optional_cells(alloc, body, kind, count)
    }
}

/// Reads the page of `count` cells that stands in front of the bytes, and the bytes behind it, as
/// `read_page` does.
pub fn read_first_page(
    alloc: Global,
    bytes: &[u8],
    kind: CellKind,
    required: bool,
    count: usize,
) -> Result<(CellList, &[u8]), PageFault>
    ensures found { IfOk result (λ r. BeginsPage kind required count bytes.now r.0 r.1.now) }
    ensures only { (cells : List AnyCell) (rest : List ℕ)
        → BeginsPage kind required count bytes.now cells rest
        → SeenGives {Y = List AnyCell × List ℕ} (λ r. (r.0, r.1.now)) result (Ok (cells, rest)) }
{
    if count == 0 || count > MAX_ROWS {
        return Err(PageFault::BadPage);
    }
    let (size, rest) = header_of(alloc, bytes, count)?;
    if rest.len() < size {
        return Err(PageFault::BadPage);
    }
    let (body, rest) = rest.split_at(size);
    let cells = cells_in(alloc, body, kind, required, count)?;
    Ok((cells, rest))
}

/// Reads the page of `count` cells that stands at the place `at`, and the place behind it, as
/// `write_page` writes it (Apache Parquet, `README.md`, "Data Pages"). Other bytes may follow
/// there. Places count bytes. No count or length that the bytes claim makes it take memory.
pub fn read_page(
    alloc: Global,
    bytes: &[u8],
    at: usize,
    kind: CellKind,
    required: bool,
    count: usize,
) -> Result<(Cells, usize), PageFault>
    requires { at ≤ length bytes.now }
    // What is read is spelled so.
    ensures found { IfOk result (λ r. IsPageAt kind required count bytes.now at r.0.cells r.1) }
    ensures column { IfOk result (λ r. (r.0.kind ≡ kind) × (r.0.required ≡ required)) }
    // What is spelled so is read, unless memory runs out.
    ensures only { (cells : List AnyCell) (end : ℕ)
        → IsPageAt kind required count bytes.now at cells end
        → Gives result (Ok (record { kind = kind; required = required; cells = cells }, end)) }
    // A page is bad exactly where there is none.
    ensures bad { result ≡ Err PageFault.BadPage → ¬ HasPage kind required count bytes.now at }
    ensures bad_only { (¬ HasPage kind required count bytes.now at)
        → Gives result (Err PageFault.BadPage) }
{
    let (cells, rest) = read_first_page(alloc, &bytes[at..], kind, required, count)?;
    let cells = Cells {
        kind,
        required,
        cells,
    };
    Ok((cells, bytes.len() - rest.len()))
}
