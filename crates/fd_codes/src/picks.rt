ghost use Rattle.std.specs.Prelude.{◌≡◌, ◌+◌, ◌++◌, ◌<◌, ◌≤◌, ◌^◌, ℕ, suc, List, length, map, All, IfOk, OnOk, Ok};
ghost use Rattle.fd_pages.specs.Pages.{Gives};
ghost use Rattle.fd_pages.specs.Dictionaries.{IsWidth};
ghost use Rattle.fd_codes.specs.Picks.{pick_level, pick_index, pick_indexes, present, next_pick, spread};
ghost use Rattle.fd_codes.specs.Codes.{ArePicks};

use crate::runs::values_in;
use crate::width::width_of;
use fd_lists::{Items, NoMemory};
use fd_pages::PageFault;
use std::alloc::Global;

/// What stands for each cell of a column: 0 where it is absent, and else one more than the index of
/// its text in the dictionary.
pub type Picks = Items<u32>;

/// The definition levels of cells.
pub(crate) fn levels_of(alloc: Global, picks: &[u32]) -> Result<Vec<u32>, NoMemory>
    ensures { IfOk result (λ levels. levels.items ≡ map pick_level picks.now) }
{
    let mut levels = Vec::new(alloc);
    for pick in picks {
        levels.push(level_of(*pick))?;
    }
    Ok(levels)
}

/// The definition level of a cell.
fn level_of(pick: u32) -> u32
    ensures { result ≡ pick_level pick }
{
    if pick == 0 { 0 } else { 1 }
}

/// Adds the index of a cell's text, if it is there.
fn put_index(indexes: &mut Vec<u32>, pick: u32) -> Result<(), NoMemory>
    ensures { OnOk result (indexes.new.items ≡ indexes.old.items ++ pick_index pick) }
{
    if pick > 0 {
        indexes.push(pick - 1)?;
    }
    Ok(())
}

/// The indexes of the texts of cells that are there.
pub(crate) fn indexes_of(alloc: Global, picks: &[u32]) -> Result<Vec<u32>, NoMemory>
    ensures { IfOk result (λ indexes. indexes.items ≡ pick_indexes picks.now) }
{
    let mut indexes = Vec::new(alloc);
    for pick in picks {
        put_index(&mut indexes, *pick)?;
    }
    Ok(indexes)
}

/// The picks of cells that are there, whose texts have these indexes.
fn picks_of(alloc: Global, indexes: &[u32], size: usize) -> Result<Picks, PageFault>
    requires { size < 2 ^ 31 }
    ensures found { IfOk result
        (λ picks. (picks ≡ map suc indexes.now) × All (λ index. index < size) indexes.now) }
    ensures only { All (λ index. index < size) indexes.now
        → Gives result (Ok (map suc indexes.now)) }
{
    let mut picks = Picks::new(alloc);
    for index in indexes {
        if *index as usize >= size {
            return Err(PageFault::BadPage);
        }
        picks.push(*index + 1)?;
    }
    Ok(picks)
}

/// The picks of `count` cells that are there, whose indexes all of the bytes spell, of so many
/// texts.
pub(crate) fn picks_in(
    alloc: Global,
    bytes: &[u8],
    size: usize,
    count: usize,
) -> Result<Picks, PageFault>
    requires { size < 2 ^ 31 }
    ensures found { IfOk result (ArePicks size count bytes.now) }
    ensures only { (picks : List ℕ) → ArePicks size count bytes.now picks
        → Gives result (Ok picks) }
{
    let Some((width, runs)) = bytes.split_first() else {
        return Err(PageFault::BadPage);
    };
    let least = width_of(size);
    if *width != least {
        return Err(PageFault::BadPage);
    }
    let indexes = values_in(alloc, runs, least, count)?;
    picks_of(alloc, indexes.as_slice(), size)
}

/// 1 for the level of a cell that is there, and else 0.
fn one_if(level: u32) -> usize
    ensures value { result ≡ pick_level level }
    ensures small { result ≤ 1 }
{
    if level == 0 { 0 } else { 1 }
}

/// How many cells with these levels are there.
pub(crate) fn present_in(levels: &[u32]) -> usize
    ensures { result ≡ present levels.now }
{
    let mut count = 0;
    for level in levels {
        count += one_if(*level);
    }
    count
}

/// The pick of a cell with this level, and the picks that are left.
fn next_of(level: u32, picks: &[u32]) -> (u32, &[u32])
    ensures pick { result.0 ≡ (next_pick level picks.now).0 }
    ensures left { result.1.now ≡ (next_pick level picks.now).1 }
{
    if level == 0 {
        return (0, picks);
    }
    match picks.split_first() {
        Some((pick, behind)) => (*pick, behind),
        None => (0, picks),
    }
}

/// The picks of cells with these levels, where these are the picks of the cells that are there.
pub(crate) fn spread_of(alloc: Global, levels: &[u32], picks: &[u32]) -> Result<Picks, NoMemory>
    ensures { IfOk result (λ all. all ≡ spread levels.now picks.now) }
{
    let mut all = Picks::new(alloc);
    let mut left = picks;
    for level in levels {
        let (pick, behind) = next_of(*level, left);
        all.push(pick)?;
        left = behind;
    }
    Ok(all)
}
