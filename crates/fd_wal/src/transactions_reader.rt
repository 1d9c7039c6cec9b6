ghost use Rattle.std.specs.Prelude.{◌≡◌, ◌↔◌, ◌+◌, ◌*◌, ◌≤◌, ◌^◌, ℕ, List, Some, Err, All, IsTrue, IfOk};
ghost use Rattle.fd_kinds.specs.declared.row.Row.{Row};
ghost use Rattle.fd_kinds.specs.History.{IsSmall};
ghost use Rattle.fd_wal.specs.Frames.{Transactions, IsOrdered};
ghost use Rattle.fd_wal.specs.Gathering.{MayFollow, HasNumbers};
ghost use Rattle.fd_wal.specs.Reading.{batch_at, many_at, transactions_at, ended};
ghost use Rattle.fd_wal.specs.Runs.{rows_in, AreNumberedFrom};

use crate::batch_writer::batch_bytes;
use crate::cursor::Cursor;
use crate::fault::ReadFault;
use fd_kinds::limits::MOST_BATCH_BYTES;
use fd_kinds::{Batch, Batches, Items, NumberedBatch, Row};
use std::alloc::Global;

/// No number of a batch reaches this.
const NUMBERS_END: u64 = 1 << 63;

/// A batch, whose rows have to be in order and no more than a batch may have.
#[tactic(auto, unfolding(crate::specs::Reading::batch_at))]
fn read_batch(alloc: Global, cursor: &mut Cursor) -> Result<Batch, ReadFault>
    ensures found { IfOk result (λ batch. batch_at cursor.old ≡ Some (batch.rows, cursor.new)) }
    ensures small { IfOk result (λ batch. IsSmall batch.rows) }
    ensures refused { result ≡ Err ReadFault.Malformed → (rows : List Row) → (rest : List ℕ)
        → batch_at cursor.old ≡ Some (rows, rest) → IsOrdered rows → ⊥ }
{
    match Batch::checked(cursor.list::<Row>(alloc)?) {
        None => Err(ReadFault::Malformed),
        Some(batch) if batch_bytes(&batch) > MOST_BATCH_BYTES => Err(ReadFault::Malformed),
        Some(batch) => Ok(batch),
    }
}

/// So many batches, with the numbers from the first on.
fn read_batches(
    alloc: Global,
    cursor: &mut Cursor,
    first: u64,
    count: u32,
) -> Result<Batches, ReadFault>
    requires { first + count ≤ 2 ^ 63 }
    ensures found { IfOk result (λ batches. many_at batch_at count cursor.old
        ≡ Some (rows_in batches, cursor.new)) }
    ensures numbered { IfOk result (λ batches. AreNumberedFrom first batches) }
    ensures ordered { IfOk result (λ batches. All IsOrdered (rows_in batches)) }
    ensures refused { result ≡ Err ReadFault.Malformed → (all : List (List Row)) → (rest : List ℕ)
        → many_at batch_at count cursor.old ≡ Some (all, rest) → All IsOrdered all → ⊥ }
{
    let mut batches = Items::new(alloc);
    batches.reserve(count as usize)?;
    for at in 0..count {
        let batch = read_batch(alloc, cursor)?;
        let number = first + u64::from(at);
        batches.push(NumberedBatch { number, batch })?;
    }
    Ok(batches)
}

/// Whether so many batches may have the numbers from `first` on, behind the number before `next`.
fn has_numbers(next: u64, first: u64, count: u32) -> bool
    ensures { IsTrue result ↔ HasNumbers next first count }
{
    if first != next || count == 0 {
        return false;
    }
    first <= NUMBERS_END && u64::from(count) <= NUMBERS_END - first
}

/// Whether so many batches have room in so many bytes.
fn has_room(left: usize, count: u32) -> bool
    ensures { IsTrue result ↔ (4 * count ≤ left) }
{
    4 * u64::from(count) <= left as u64
}

/// The batches of transactions, of which all of the bytes behind the kind tell. They have the
/// numbers from `next` on.
pub(crate) fn transactions_of(alloc: Global, bytes: &[u8], next: u64) -> Result<Batches, ReadFault>
    ensures found { IfOk result (λ batches. ended (transactions_at bytes.now)
        ≡ Some (Transactions next (rows_in batches))) }
    ensures numbered { IfOk result (λ batches. AreNumberedFrom next batches) }
    ensures follows { IfOk result (λ batches. MayFollow next next (rows_in batches)) }
    ensures refused { result ≡ Err ReadFault.Malformed
        → (first : ℕ) → (all : List (List Row))
        → ended (transactions_at bytes.now) ≡ Some (Transactions first all)
        → MayFollow next first all → ⊥ }
{
    let mut cursor = Cursor::new(bytes);
    let first = cursor.number()?;
    let count = cursor.count()?;
    if !has_numbers(next, first, count) {
        return Err(ReadFault::Malformed);
    }
    if !has_room(cursor.left(), count) {
        return Err(ReadFault::Malformed);
    }
    let batches = read_batches(alloc, &mut cursor, first, count)?;
    if cursor.left() > 0 {
        return Err(ReadFault::Malformed);
    }
    Ok(batches)
}
