ghost use Rattle.std.specs.Prelude.{◌≡◌, ◌++◌, ℕ, List, IfOk, Ok};
ghost use Rattle.fd_pages.specs.declared.cell.Cell.{Cell as AnyCell};
ghost use Rattle.fd_pages.specs.Pages.{SeenGives};
ghost use Rattle.fd_table_file.specs.Chunks.{BeginsCells};

use fd_kinds::{Items, NoMemory};
use fd_pages::{CellKind, CellList, MAX_ROWS, PageFault, read_first_page};
use std::alloc::Global;

/// The cells and more behind them.
fn with_cells(cells: CellList, more: CellList) -> Result<CellList, NoMemory>
    ensures { IfOk result (λ all. all ≡ cells ++ more) }
{
    let mut list = cells.into_vec();
    list.append(&mut more.into_vec())?;
    Ok(Items::from_vec(list))
}

/// The `count` cells whose chunk stands in front of the bytes, and the bytes behind it.
pub(crate) fn chunk_in(
    alloc: Global,
    bytes: &[u8],
    kind: CellKind,
    required: bool,
    count: usize,
) -> Result<(CellList, &[u8]), PageFault>
    ensures found { IfOk result (λ r. BeginsCells kind required count bytes.now r.0 r.1.now) }
    ensures only { (cells : List AnyCell) (rest : List ℕ)
        → BeginsCells kind required count bytes.now cells rest
        → SeenGives {Y = List AnyCell × List ℕ} (λ r. (r.0, r.1.now)) result (Ok (cells, rest)) }
{
    let mut cells = Items::new(alloc);
    let mut rest = bytes;
    while cells.len() < count {
        let size = (count - cells.len()).min(MAX_ROWS);
        let (more, behind) = read_first_page(alloc, rest, kind, required, size)?;
        cells = with_cells(cells, more)?;
        rest = behind;
    }
    Ok((cells, rest))
}
