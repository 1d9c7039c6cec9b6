ghost use Rattle.std.specs.Prelude.{◌≡◌, ◌↔◌, ◌+◌, ◌<◌, true, false, take, length, IfOk, IsTrue};
ghost use Rattle.fd_part.specs.Sizes.{AreSizes, HasLargeBatch, AreSmallBatches};

use fd_column::{ColumnPart, Columns};
use fd_kinds::limits::MOST_BATCH_BYTES;
use fd_kinds::{NoMemory, Numbered, row_bytes};
use std::alloc::Global;
use std::collections::BTreeMap;

/// Adds the bytes of the row at a place to those of its number, and answers whether these are few
/// enough for a batch. After `false` the sizes are of no use.
fn add_row(sizes: &mut BTreeMap<u64, u64>, table: &ColumnPart, at: usize) -> Result<bool, NoMemory>
    requires inside { at < length table.now }
    requires sizes { AreSizes sizes.old (take at table.now) }
    ensures small { IfOk result (λ small. small ≡ true
        → AreSizes sizes.new (take (at + 1) table.now)) }
    ensures large { IfOk result (λ small. small ≡ false → HasLargeBatch table.now) }
{
    let Numbered { number, row } = table.row(at)?;
    let before = sizes.get(&number).copied().unwrap_or(0);
    let sum = before.saturating_add(row_bytes(&row));
    if sum > MOST_BATCH_BYTES {
        return Ok(false);
    }
    sizes.insert(number, sum)?;
    Ok(true)
}

/// Whether the rows of each number are few enough for a batch. It keeps one sum for each number
/// that occurs, and ends with the first that is too large.
#[tactic(auto, using(crate::proofs::BatchSizes::no_small, crate::proofs::BatchSizes::all_small))]
pub(crate) fn has_small_batches(alloc: Global, table: &ColumnPart) -> Result<bool, NoMemory>
    ensures { IfOk result (λ small. IsTrue small ↔ AreSmallBatches table.now) }
{
    let mut sizes = BTreeMap::new(alloc);
    for at in 0..table.len() {
        if !add_row(&mut sizes, table, at)? {
            return Ok(false);
        }
    }
    Ok(true)
}
