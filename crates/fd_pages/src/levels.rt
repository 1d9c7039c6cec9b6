ghost use Rattle.std.specs.Prelude.{◌≡◌, ℕ, List, map, IfOk, Ok};
ghost use Rattle.fd_hybrid.specs.Format.{IsSpelling};
ghost use Rattle.fd_hybrid.specs.Refusals.{Spells};
ghost use Rattle.fd_pages.specs.Columns.{level};
ghost use Rattle.fd_pages.specs.Pages.{Gives};

use crate::{Cell, PageFault};
use fd_hybrid::{HybridFault, Values, pack, unpack};
use fd_lists::{Bytes, NoMemory};
use std::alloc::Global;

/// The definition level of a cell.
fn level_of(cell: &Cell) -> u32
    ensures { result ≡ level cell.now }
{
    match cell {
        Cell::Absent => 0,
        Cell::Whole(_) | Cell::Bytes(_) => 1,
    }
}

/// The definition levels of cells.
fn levels_of(alloc: Global, cells: &[Cell]) -> Result<Vec<u32>, NoMemory>
    ensures { IfOk result (λ levels. levels.items ≡ map level cells.now) }
{
    let mut levels = Vec::new(alloc);
    for cell in cells {
        levels.push(level_of(cell))?;
    }
    Ok(levels)
}

/// The definition levels of cells in hybrid runs.
pub(crate) fn level_runs(alloc: Global, cells: &[Cell]) -> Result<Bytes, NoMemory>
    ensures { IfOk result (λ runs. IsSpelling 1 (map level cells.now) runs) }
{
    let levels = levels_of(alloc, cells)?;
    match pack(alloc, levels.as_slice(), 1) {
        Ok(runs) => Ok(Bytes::from_vec(runs.into_vec())),
        Err(_) => Err(NoMemory),
    }
}

/// The definition levels that hybrid runs spell, of which there are `count`.
pub(crate) fn levels_in(alloc: Global, runs: &[u8], count: usize) -> Result<Values, PageFault>
    ensures found { IfOk result (Spells 1 count runs.now) }
    ensures only { (levels : List ℕ) → Spells 1 count runs.now levels → Gives result (Ok levels) }
{
    match unpack(alloc, runs, 1, count) {
        Ok(levels) => Ok(levels),
        Err(HybridFault::NoMemory) => Err(PageFault::NoMemory),
        Err(_) => Err(PageFault::BadPage),
    }
}
