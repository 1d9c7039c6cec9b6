ghost use Rattle.std.specs.Prelude.{◌≡◌, List, length, replicate, Ok};
ghost use Rattle.std.specs.Int.{w32, w64, cast_signed};
ghost use Rattle.fd_pages.specs.Reader.{Decodes, DecodesOrRunsOut, fixed_width_at, sized_at, value_at, cell_at, cells_at, ended};

use crate::{Cell, CellKind, CellList, PageFault};
use fd_lists::{Bytes, Items};
use std::alloc::Global;

/// The number in the first four bytes, the lowest first, and the bytes behind them.
fn u32_at(bytes: &[u8]) -> Result<(u32, &[u8]), PageFault>
    ensures { Decodes (λ x. (x.0, x.1.now)) result (fixed_width_at w32 bytes.now) }
{
    if bytes.len() < 4 {
        return Err(PageFault::BadPage);
    }
    let (front, rest) = bytes.split_at(4);
    let number = u32::from_le_bytes([front[0], front[1], front[2], front[3]]);
    Ok((number, rest))
}

/// The number in the first eight bytes, the lowest first, and the bytes behind them.
fn u64_at(bytes: &[u8]) -> Result<(u64, &[u8]), PageFault>
    ensures { Decodes (λ x. (x.0, x.1.now)) result (fixed_width_at w64 bytes.now) }
{
    if bytes.len() < 8 {
        return Err(PageFault::BadPage);
    }
    let (front, rest) = bytes.split_at(8);
    let number = u64::from_le_bytes([
        front[0], front[1], front[2], front[3], front[4], front[5], front[6], front[7],
    ]);
    Ok((number, rest))
}

/// The bytes that stand behind their length, and those behind them.
#[tactic(auto, unfolding(crate::specs::Reader::sized_at))]
pub(crate) fn sized_of(bytes: &[u8]) -> Result<(&[u8], &[u8]), PageFault>
    ensures { Decodes (λ x. (x.0.now, x.1.now)) result (sized_at bytes.now) }
{
    let (size, rest) = u32_at(bytes)?;
    let size = size as usize;
    if rest.len() < size {
        return Err(PageFault::BadPage);
    }
    Ok(rest.split_at(size))
}

/// A value of this kind, and the bytes behind it.
#[tactic(auto, unfolding(crate::specs::Reader::value_at))]
fn value_of(alloc: Global, kind: CellKind, bytes: &[u8]) -> Result<(Cell, &[u8]), PageFault>
    ensures { DecodesOrRunsOut (λ x. (x.0, x.1.now)) result (value_at kind bytes.now) }
{
    match kind {
        CellKind::Whole => {
            let (number, rest) = u64_at(bytes)?;
            Ok((Cell::Whole(number.cast_signed()), rest))
        }
        CellKind::Bytes => {
            let (text, rest) = sized_of(bytes)?;
            Ok((Cell::Bytes(Bytes::from_slice(alloc, text)?), rest))
        }
    }
}

/// A cell with this definition level, and the bytes behind it.
#[tactic(auto, unfolding(crate::specs::Reader::cell_at))]
fn cell_of(
    alloc: Global,
    kind: CellKind,
    level: u32,
    bytes: &[u8],
) -> Result<(Cell, &[u8]), PageFault>
    ensures { DecodesOrRunsOut (λ x. (x.0, x.1.now)) result (cell_at kind level bytes.now) }
{
    if level == 0 {
        return Ok((Cell::Absent, bytes));
    }
    value_of(alloc, kind, bytes)
}

/// A cell for each definition level, and the bytes behind them.
fn cells_of<'a>(
    alloc: Global,
    kind: CellKind,
    levels: &[u32],
    bytes: &'a [u8],
) -> Result<(CellList, &'a [u8]), PageFault>
    ensures { DecodesOrRunsOut (λ x. (x.0, x.1.now)) result (cells_at kind levels.now bytes.now) }
{
    let mut cells = Items::new(alloc);
    let mut rest = bytes;
    for level in levels {
        let (cell, behind) = cell_of(alloc, kind, *level, rest)?;
        cells.push(cell)?;
        rest = behind;
    }
    Ok((cells, rest))
}

/// So many cells that are there, and the bytes behind them.
fn values_of(
    alloc: Global,
    kind: CellKind,
    count: usize,
    bytes: &[u8],
) -> Result<(CellList, &[u8]), PageFault>
    ensures { DecodesOrRunsOut (λ x. (x.0, x.1.now)) result
        (cells_at kind (replicate count 1) bytes.now) }
{
    let mut cells = Items::new(alloc);
    let mut rest = bytes;
    for _ in 0..count {
        let (cell, behind) = cell_of(alloc, kind, 1, rest)?;
        cells.push(cell)?;
        rest = behind;
    }
    Ok((cells, rest))
}

/// The cells with these definition levels that all of the bytes spell.
pub(crate) fn all_cells(
    alloc: Global,
    kind: CellKind,
    levels: &[u32],
    bytes: &[u8],
) -> Result<CellList, PageFault>
    ensures { DecodesOrRunsOut (λ cells. cells) result
        (ended (cells_at kind levels.now bytes.now)) }
{
    let (cells, rest) = cells_of(alloc, kind, levels, bytes)?;
    if !rest.is_empty() {
        return Err(PageFault::BadPage);
    }
    Ok(cells)
}

/// So many cells that are there, which all of the bytes spell.
pub(crate) fn all_values(
    alloc: Global,
    kind: CellKind,
    count: usize,
    bytes: &[u8],
) -> Result<CellList, PageFault>
    ensures { DecodesOrRunsOut (λ cells. cells) result
        (ended (cells_at kind (replicate count 1) bytes.now)) }
{
    let (cells, rest) = values_of(alloc, kind, count, bytes)?;
    if !rest.is_empty() {
        return Err(PageFault::BadPage);
    }
    Ok(cells)
}
