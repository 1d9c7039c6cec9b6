ghost use Rattle.std.specs.Prelude.{◌≡◌, ◌≤◌, ◌<◌, ◌+◌, ◌^◌, [], ◌∷◌, ◌++◌, length, All, false};
ghost use Rattle.std.specs.Prelude.{OnOk, IfOk};
ghost use Rattle.fd_kinds.specs.History.{IsSmall};
ghost use Rattle.fd_kinds.specs.Parts.{loose_part};
ghost use Rattle.fd_kinds.specs.declared.limits.TheConstants.{BLOCK_BYTES_LIMIT};
ghost use Rattle.fd_shelf.specs.Books.{rows_in as rows_of_parts, bytes_of};
ghost use Rattle.fd_shelf.specs.Histories.{hist};
ghost use Rattle.fd_wal.specs.Frames.{batches_size, IsBatch};
ghost use Rattle.fd_wal.specs.Runs.{rows_in, AreNumberedFrom};
ghost use Rattle.fd_open.specs.Counting.{IsFound};
ghost use Rattle.fd_open.specs.Shelving.{Shelves, tail_of, GoesOn, parts_from, with_parts};

use crate::reading::LogFound;
use crate::tail::Tail;
use fd_kinds::{Held, NoMemory, NumberedBatch};
use fd_part::Part;
use fd_shelf::{Shelf, batch_laws};

/// Adds a batch to the active block, behind all others.
fn add_batch(shelf: &mut Shelf<Part>, batch: &NumberedBatch) -> Result<(), NoMemory>
    requires alone { shelf.old.book.stragglers ≡ [] }
    requires next { batch.now.number ≡ shelf.old.mark + 1 }
    requires below { batch.now.number < 2 ^ 63 }
    requires small { IsSmall batch.now.batch.rows }
    requires light { bytes_of (rows_of_parts shelf.old.book.active)
        + bytes_of (loose_part batch.now.number batch.now.batch.rows).rows < BLOCK_BYTES_LIMIT }
    ensures closed { OnOk result (shelf.new.book.closed ≡ shelf.old.book.closed) }
    ensures active { OnOk result (shelf.new.book.active ≡ shelf.old.book.active
        ++ loose_part batch.now.number batch.now.batch.rows ∷ []) }
    ensures alone { OnOk result (shelf.new.book.stragglers ≡ []) }
    ensures mark { OnOk result (shelf.new.mark ≡ shelf.old.mark + 1) }
    ensures history { OnOk result (hist shelf.new.book shelf.new.mark
        ≡ hist shelf.old.book shelf.old.mark ++ batch.now.batch.rows ∷ []) }
{
    shelf.reserve(1)?;
    let mut part = Part::of(&batch.batch)?;
    part.number(batch.number);
    shelf.append(part);
    shelf.history_laws();
    batch_laws();
    Ok(())
}

/// Adds batches to the active block, which has none, behind all others.
fn add_batches(shelf: &mut Shelf<Part>, batches: &[NumberedBatch]) -> Result<(), NoMemory>
    requires empty { shelf.old.book.active ≡ [] }
    requires alone { shelf.old.book.stragglers ≡ [] }
    requires numbered { AreNumberedFrom (shelf.old.mark + 1) batches.now }
    requires below { shelf.old.mark + length batches.now < 2 ^ 63 }
    requires each { All IsBatch (rows_in batches.now) }
    requires light { batches_size (rows_in batches.now) < BLOCK_BYTES_LIMIT }
    ensures added { OnOk result (Shelves (rows_in batches.now) false shelf.old shelf.new) }
{
    let mut rest = batches;
    while let Some((batch, others)) = rest.split_first() {
        add_batch(shelf, batch)?;
        rest = others;
    }
    Ok(())
}

/// Adds the batches of a log, which begin with the next number, to the active block, which has
/// none, and closes it where another block follows. Else it answers where the log ends.
pub(crate) fn add_block(shelf: &mut Shelf<Part>, found: &LogFound) -> Result<Option<Tail>, NoMemory>
    requires empty { shelf.old.book.active ≡ [] }
    requires alone { shelf.old.book.stragglers ≡ [] }
    requires found { IsFound (shelf.old.mark + 1) found.now }
    requires below { shelf.old.mark < 2 ^ 63 }
    ensures shelves { OnOk result (Shelves (rows_in found.now.replayed.batches)
        found.now.replayed.rotated shelf.old shelf.new) }
    ensures tail { IfOk result (λ tail. tail ≡ tail_of found.now) }
    ensures next { IfOk result (λ tail. GoesOn shelf.old tail shelf.new) }
{
    add_batches(shelf, found.replayed.batches.as_slice())?;
    if found.replayed.rotated {
        shelf.reserve(1)?;
        shelf.rotate();
        return Ok(None);
    }
    Ok(Some(Tail {
        gate: found.replayed.gate,
        size: found.size,
    }))
}

/// The number that follows those of the shelf.
pub(crate) fn next_number(shelf: &Shelf<Part>) -> u64
    ensures value { result ≡ shelf.now.mark + 1 }
    ensures below { shelf.now.mark < 2 ^ 63 }
{
    shelf.is_in_order();
    shelf.mark() + 1
}

/// The last number of the shelf.
pub(crate) fn last_number(shelf: &Shelf<Part>) -> u64
    ensures value { result ≡ shelf.now.mark }
    ensures below { result < 2 ^ 63 }
{
    next_number(shelf) - 1
}
