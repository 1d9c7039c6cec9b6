ghost use Rattle.std.specs.Prelude.{◌≡◌, ◌<◌, ◌≤◌, ◌+◌, [], ◌∷◌, ◌++◌, length, if◌then◌else◌};
ghost use Rattle.std.specs.Prelude.{flat_map, All, IfOk};
ghost use Rattle.fd_kinds.specs.History.{IsSmall};
ghost use Rattle.fd_kinds.specs.Parts.{rows_of};
ghost use Rattle.fd_kinds.specs.declared.limits.TheConstants.{MOST_BATCH_BYTES, MOST_NUMBERS};
ghost use Rattle.fd_shelf.specs.Books.{IsLoose, settled_parts, rows_in, bytes_of};
ghost use Rattle.fd_shelf.specs.Histories.{hist, in_row_order};
ghost use Rattle.fd_shelf.specs.Steps.{is_full};
ghost use Rattle.fd_part.specs.Parts.{part_meaning};
ghost use Rattle.fd_wal.specs.Runs.{rows_in as rows_of_batches, AreNumberedFrom, IsSmallBatch};

use fd_kinds::{Batch, Batches, Held, NoMemory, NumberedBatch};
use fd_part::Part;
use fd_shelf::{Picked, Shelf};

/// Adds a batch that has no number, under the number that follows the mark, to the block that the
/// next number goes to.
pub(crate) fn add(shelf: &mut Shelf<Part>, part: Part)
    requires alone { shelf.old.book.stragglers ≡ [] }
    requires loose { IsLoose (part_meaning part) }
    requires unnumbered { (part_meaning part).lo ≡ 0 }
    requires room { shelf.old.mark < MOST_NUMBERS }
    requires small { bytes_of (part_meaning part).rows ≤ MOST_BATCH_BYTES }
    requires spare { 0 < shelf.old.spare }
    ensures alone { shelf.new.book.stragglers ≡ [] }
    ensures mark { shelf.new.mark ≡ shelf.old.mark + 1 }
    ensures closed { shelf.new.book.closed ≡ (if is_full shelf.old.book.active
        then shelf.old.book.closed ++ shelf.old.book.active ∷ []
        else shelf.old.book.closed) }
    ensures history { hist shelf.new.book shelf.new.mark
        ≡ hist shelf.old.book shelf.old.mark
        ++ in_row_order (rows_of (part_meaning part).rows) ∷ [] }
{
    let mut part = part;
    part.number(shelf.mark() + 1);
    shelf.admit(part);
    shelf.advance();
}

/// How many batches there are.
pub(crate) fn drawn(shelf: &Shelf<Part>) -> u64
    ensures mark { result ≡ shelf.now.mark }
    ensures count { result ≡ length (hist shelf.now.book shelf.now.mark) }
{
    shelf.history_laws();
    shelf.mark()
}

/// Shares of all parts, in order.
pub(crate) fn all_parts(shelf: &Shelf<Part>) -> Result<Picked<Part>, NoMemory>
    ensures { IfOk result (λ picked.
        flat_map (λ i. rows_of (part_meaning i.part).rows) picked
        ≡ rows_of (rows_in (settled_parts shelf.now.book))) }
{
    shelf.is_in_order();
    let picked = shelf.parts_upto(shelf.mark())?;
    Ok(picked)
}

/// The one batch under its number.
pub(crate) fn numbered(number: u64, batch: Batch) -> Result<Batches, NoMemory>
    requires small { IsSmall batch.rows }
    ensures one { IfOk result (λ batches. length batches ≡ 1) }
    ensures rows { IfOk result (λ batches. rows_of_batches batches ≡ batch.rows ∷ []) }
    ensures numbers { IfOk result (AreNumberedFrom number) }
    ensures small { IfOk result (All IsSmallBatch) }
{
    let mut batches = Batches::new(batch.rows.allocator());
    batches.push(NumberedBatch { number, batch })?;
    Ok(batches)
}
