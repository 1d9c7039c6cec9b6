ghost use Rattle.std.specs.Prelude.{◌≡◌, ◌+◌, ◌<◌, ℕ, take, length, IfOk, OnOk};
ghost use Rattle.fd_kinds.specs.declared.row.Row.{Row};
ghost use Rattle.fd_shelf.specs.Histories.{in_row_order};
ghost use Rattle.fd_part.specs.Batches.{AreByNumber, AreBatchesOfRows, AreListed, entry_of};

use fd_column::{ColumnPart, Columns};
use fd_kinds::{Batch, Batches, Items, NoMemory, Numbered, NumberedBatch, Rows};
use fd_shelf::batch_laws;
use std::alloc::Global;
use std::collections::BTreeMap;

/// Adds the row at a place to those of its number.
fn add_row(
    alloc: Global,
    map: &mut BTreeMap<u64, Rows>,
    table: &ColumnPart,
    at: usize,
) -> Result<(), NoMemory>
    requires inside { at < length table.now }
    requires rows { AreByNumber map.old (take at table.now) }
    ensures { OnOk result (AreByNumber map.new (take (at + 1) table.now)) }
{
    let Numbered { number, row } = table.row(at)?;
    let mut rows = map.remove(&number).unwrap_or(Items::new(alloc));
    rows.push(row)?;
    map.insert(number, rows)?;
    Ok(())
}

/// The rows of each number that occurs, in the order in which they stand.
fn by_number(alloc: Global, table: &ColumnPart) -> Result<BTreeMap<u64, Rows>, NoMemory>
    ensures { IfOk result (λ map. AreByNumber map table.now) }
{
    let mut map = BTreeMap::new(alloc);
    for at in 0..table.len() {
        add_row(alloc, &mut map, table, at)?;
    }
    Ok(map)
}

/// The batch of rows, with its number.
fn numbered_batch(number: u64, rows: Rows) -> Result<NumberedBatch, NoMemory>
    ensures { IfOk result (λ batch. entry_of batch ≡ (number, in_row_order rows)) }
{
    let batch = Batch::of(rows)?;
    batch_laws();
    Ok(NumberedBatch { number, batch })
}

/// The batches of a map, in the order of their numbers.
fn in_order(alloc: Global, map: BTreeMap<u64, Rows>) -> Result<Batches, NoMemory>
    ensures { IfOk result (λ batches. AreListed map batches) }
{
    let mut batches = Items::new(alloc);
    for (number, rows) in map {
        let batch = numbered_batch(number, rows)?;
        batches.push(batch)?;
    }
    Ok(batches)
}

/// The batches of the numbers that occur. It goes over the rows once, and takes memory for them
/// and for the numbers that occur.
pub(crate) fn batches_of(table: &ColumnPart) -> Result<Batches, NoMemory>
    ensures { IfOk result (λ batches. AreBatchesOfRows table.now batches) }
{
    let alloc = table.names().allocator();
    let map = by_number(alloc, table)?;
    let batches = in_order(alloc, map)?;
    Ok(batches)
}
