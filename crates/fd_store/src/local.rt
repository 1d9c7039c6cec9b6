ghost use Rattle.std.specs.Prelude.{◌≡◌, ◌<◌, ◌≤◌, ◌+◌, ◌^◌, [], ◌∷◌, ◌++◌, length};
ghost use Rattle.std.specs.Prelude.{filter, flat_map, IfOk};
ghost use Rattle.fd_kinds.specs.History.{IsOpened, history_of};
ghost use Rattle.fd_kinds.specs.Parts.{rows_of};
ghost use Rattle.fd_shelf.specs.Books.{IsLoose, settled_parts, rows_in, bytes_of};
ghost use Rattle.fd_kinds.specs.declared.limits.TheConstants.{MOST_BATCH_BYTES, MOST_NUMBERS};
ghost use Rattle.fd_shelf.specs.Histories.{hist, in_row_order};
ghost use Rattle.fd_shelf.specs.Steps.{is_loose};
ghost use Rattle.fd_part.specs.Parts.{part_meaning};

use fd_answer::answer;
use fd_compact::compact_full;
use fd_kinds::limits::MOST_NUMBERS;
use fd_kinds::{
    Batch, Held, NoMemory, Query, ReadRefusal, Seen, Stand, Store, WriteRefusal, meaning_laws,
};
use fd_part::Part;
use fd_shelf::{Picked, Shelf, batch_laws};
use std::marker::Model;

/// A store in memory that nobody shares. Contracts see it as the history that it was opened with
/// and the batches that were added to it: batch n of both, one behind the other, has the number n.
#[derive(Debug, Drop)]
pub struct Local {
    shelf: Shelf<Part>,
    // how many batches there were when the store was opened
    opened: u64,
    // whether the last write found no memory to compact
    wanting: bool,
}

impl Model for Local {
    ghost use Rattle.std.specs.Prelude.{◌≡◌, ◌≤◌, [], take, drop, filter, length};
    ghost use Rattle.fd_kinds.specs.History.{LocalView};
    ghost use Rattle.fd_shelf.specs.Histories.{hist};
    ghost use Rattle.fd_shelf.specs.Steps.{is_loose};

    ghost Value = { LocalView };

    ghost view = { λ s. record {
      opening = take s.opened (hist s.shelf.book s.shelf.mark);
      added = drop s.opened (hist s.shelf.book s.shelf.mark);
      loose = length (filter is_loose s.shelf.book.active);
      wanting = s.wanting;
    } };

    ghost invariant = { λ s. (s.shelf.book.stragglers ≡ []) × (s.opened ≤ s.shelf.mark) };
}

/// Adds a batch that has no number, under the number that follows the mark.
fn add(shelf: &mut Shelf<Part>, part: Part)
    requires alone { shelf.old.book.stragglers ≡ [] }
    requires loose { IsLoose (part_meaning part) }
    requires unnumbered { (part_meaning part).lo ≡ 0 }
    requires room { shelf.old.mark < MOST_NUMBERS }
    requires small { bytes_of (part_meaning part).rows ≤ MOST_BATCH_BYTES }
    requires spare { 0 < shelf.old.spare }
    ensures alone { shelf.new.book.stragglers ≡ [] }
    ensures mark { shelf.new.mark ≡ shelf.old.mark + 1 }
    ensures history { hist shelf.new.book shelf.new.mark
        ≡ hist shelf.old.book shelf.old.mark
        ++ in_row_order (rows_of (part_meaning part).rows) ∷ [] }
{
    let mut part = part;
    part.number(shelf.mark() + 1);
    shelf.admit(part);
    shelf.advance();
}

/// How many batches there are.
fn drawn(shelf: &Shelf<Part>) -> u64
    ensures mark { result ≡ shelf.now.mark }
    ensures count { result ≡ length (hist shelf.now.book shelf.now.mark) }
{
    shelf.history_laws();
    shelf.mark()
}

/// Shares of all parts, in order.
fn all_parts(shelf: &Shelf<Part>) -> Result<Picked<Part>, NoMemory>
    ensures { IfOk result (λ picked.
        flat_map (λ i. rows_of (part_meaning i.part).rows) picked
        ≡ rows_of (rows_in (settled_parts shelf.now.book))) }
{
    shelf.is_in_order();
    let picked = shelf.parts_upto(shelf.mark())?;
    Ok(picked)
}

impl Local {
    /// A store over a shelf without stragglers, which is opened with the shelf's history. It takes
    /// no memory.
    pub fn new(shelf: Shelf<Part>) -> Local
        requires { shelf.book.stragglers ≡ [] }
        ensures { IsOpened (hist shelf.book shelf.mark) result }
    {
        shelf.history_laws();
        let opened = shelf.mark();
        Local {
            shelf,
            opened,
            wanting: false,
        }
    }

    /// The shelf of the store. It takes no memory.
    pub fn close(self) -> Shelf<Part>
        ensures alone { result.book.stragglers ≡ [] }
        ensures history { hist result.book result.mark ≡ history_of self }
        ensures loose { length (filter is_loose result.book.active) ≡ self.loose }
    {
        let Local { shelf, .. } = self;
        shelf
    }
}

impl Store for Local {
    ghost use Rattle.std.specs.Prelude.{false};
    ghost use Rattle.fd_kinds.specs.History.{Writes, Reads, Stands};
    ghost use Rattle.fd_kinds.specs.Stores.{alone};
    ghost use Rattle.fd_kinds.proofs.StoreLaws.{«alone-write», «alone-read», «alone-stand»};

    ghost sees = { alone };

    ghost write_law = { «alone-write» };

    ghost read_law = { «alone-read» };

    ghost stand_law = { «alone-stand» };

    ghost write_gives = { Writes };

    ghost read_gives = { Reads };

    ghost stand_gives = { Stands };

    ghost faults = { λ _. 0 };

    ghost has_failed = { λ _. false };

    fn write(&mut self, batch: Batch) -> Result<u64, WriteRefusal> {
        let drawn = drawn(&self.shelf);
        if drawn >= MOST_NUMBERS {
            return Err(WriteRefusal::Spent { drawn });
        }
        let part = Part::fresh(batch)?;
        self.shelf.reserve(1)?;
        add(&mut self.shelf, part);
        batch_laws();
        // Where memory is wanting for it, a later write compacts.
        self.wanting = compact_full(&mut self.shelf).is_err();
        Ok(drawn + 1)
    }

    fn read(&mut self, after: u64, query: &Query) -> Result<Seen, ReadRefusal> {
        let watermark = drawn(&self.shelf);
        if after > watermark {
            return Err(ReadRefusal::NotDrawn { drawn: watermark });
        }
        let parts = all_parts(&self.shelf)?;
        let answer = answer(query, &parts)?;
        self.shelf.history_laws();
        meaning_laws();
        Ok(Seen { watermark, answer })
    }

    fn stand(&mut self) -> Stand {
        let drawn = drawn(&self.shelf);
        Stand {
            drawn,
            synced: drawn,
            watermark: drawn,
        }
    }
}
