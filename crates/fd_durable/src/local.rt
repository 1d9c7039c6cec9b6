ghost use Rattle.std.specs.Prelude.{◌≡◌, ◌≤◌, [], length, filter, None, is_some, false};
ghost use Rattle.fd_kinds.specs.History.{IsOpened, history_of};
ghost use Rattle.fd_device.specs.Disks.{Settled};
ghost use Rattle.fd_shelf.specs.Histories.{hist};
ghost use Rattle.fd_shelf.specs.Steps.{is_loose};
ghost use Rattle.fd_durable.specs.Logs.{StandsFor};

use crate::logging::log;
use crate::shelving::{add, all_parts, drawn, numbered};
use fd_answer::answer;
use fd_compact::compact_full;
use fd_device::Disk;
use fd_keeper::Keeper;
use fd_kinds::limits::MOST_NUMBERS;
use fd_kinds::{Batch, Query, ReadRefusal, Seen, Stand, Store, WriteRefusal, meaning_laws};
use fd_part::Part;
use fd_shelf::{Shelf, batch_laws};
use std::marker::Model;

/// A store over a disk that nobody shares. Contracts see of it the history that it was opened with
/// and the batches that were added to it, its disk, and whether that has failed in a call.
#[derive(Drop)]
pub struct Local<D: Disk> {
    shelf: Shelf<Part>,
    keeper: Keeper<D>,
    // how many batches there were when the store was opened
    opened: u64,
    // whether the last write found no memory to compact
    wanting: bool,
}

impl<D: Disk> Model for Local<D> {
    ghost use Rattle.std.specs.Prelude.{◌≡◌, ◌≤◌, [], take, drop, filter, length, None, is_some};
    ghost use Rattle.fd_shelf.specs.Histories.{hist};
    ghost use Rattle.fd_shelf.specs.Steps.{is_loose};
    ghost use Rattle.fd_durable.specs.Durable.{Held};
    ghost use Rattle.fd_durable.specs.Logs.{StandsFor};

    ghost Value = { Held D };

    ghost view = { λ s. record {
      local = record {
        opening = take s.opened (hist s.shelf.book s.shelf.mark);
        added = drop s.opened (hist s.shelf.book s.shelf.mark);
        loose = length (filter is_loose s.shelf.book.active);
        wanting = s.wanting;
      };
      disk = s.keeper.disk;
      failed = is_some s.keeper.fault;
    } };

    ghost invariant = { λ s. (s.shelf.book.stragglers ≡ [])
        × (s.opened ≤ s.shelf.mark)
        × (s.keeper.fault ≡ None → s.keeper.synced ≡ s.shelf.mark)
        × (s.keeper.fault ≡ None → D.honest s.keeper.disk
        → StandsFor D.seen D.may_leave s.keeper s.shelf) };
}

impl<D: Disk> Local<D> {
    /// A store over a shelf without stragglers, and a keeper that stands with it for one history
    /// with the same numbers in each block, and none of whose calls met a fault of the disk. It
    /// takes no memory.
    pub fn new(shelf: Shelf<Part>, keeper: Keeper<D>) -> Local<D>
        requires alone { shelf.book.stragglers ≡ [] }
        requires healthy { keeper.fault ≡ None }
        requires count { keeper.synced ≡ shelf.mark }
        requires stands { D.honest keeper.disk → StandsFor D.seen D.may_leave keeper shelf }
        ensures opened { IsOpened (hist shelf.book shelf.mark) result.local }
        ensures disk { result.disk ≡ keeper.disk }
        ensures healthy { result.failed ≡ false }
    {
        shelf.history_laws();
        let opened = shelf.mark();
        Local {
            shelf,
            keeper,
            opened,
            wanting: false,
        }
    }

    /// The shelf and the keeper of the store. It takes no memory.
    pub fn close(self) -> (Shelf<Part>, Keeper<D>)
        ensures alone { result.0.book.stragglers ≡ [] }
        ensures history { hist result.0.book result.0.mark ≡ history_of self.local }
        ensures loose { length (filter is_loose result.0.book.active) ≡ self.local.loose }
        ensures disk { result.1.disk ≡ self.disk }
        ensures failed { is_some result.1.fault ≡ self.failed }
        ensures count { result.1.fault ≡ None → result.1.synced ≡ result.0.mark }
        ensures stands { result.1.fault ≡ None → D.honest result.1.disk
            → StandsFor D.seen D.may_leave result.1 result.0 }
    {
        let Local { shelf, keeper, .. } = self;
        (shelf, keeper)
    }
}

impl<D: Disk> Store for Local<D> {
    ghost use Rattle.fd_kinds.specs.Stores.{alone};
    ghost use Rattle.fd_kinds.proofs.StoreLaws.{«alone-write», «alone-read», «alone-stand»};
    ghost use Rattle.fd_durable.specs.Durable.{WritesThrough, ReadsThrough, StandsThrough};

    ghost sees = { λ s. alone s.local };

    ghost write_law = { λ old rows result new gives.
        «alone-write» old.local rows result new.local gives.numbers };

    ghost read_law = { λ old after query result new gives.
        «alone-read» old.local after query result new.local gives.numbers };

    ghost stand_law = { λ old stand new gives.
        «alone-stand» old.local stand new.local gives.numbers };

    ghost write_gives = { WritesThrough D.honest D.seen D.may_leave D.moment D.left_since };

    ghost read_gives = { ReadsThrough D.honest D.seen D.may_leave D.moment D.left_since };

    ghost stand_gives = { StandsThrough D.honest D.seen D.may_leave D.moment D.left_since };

    ghost faults = { λ s. D.faults s.disk };

    ghost has_failed = { λ s. s.failed };

    fn write(&mut self, batch: Batch) -> Result<u64, WriteRefusal> {
        let drawn = drawn(&self.shelf);
        if drawn >= MOST_NUMBERS {
            return Err(WriteRefusal::Spent { drawn });
        }
        let alloc = batch.rows.allocator();
        let part = Part::of(&batch)?;
        let batches = numbered(drawn + 1, batch)?;
        self.shelf.reserve(1)?;
        log(alloc, &mut self.keeper, &self.shelf, &batches)?;
        add(&mut self.shelf, part);
        batch_laws();
        // Where memory is wanting for it, a later write compacts.
        self.wanting = compact_full(&mut self.shelf).is_err();
        Ok(drawn + 1)
    }

    fn read(&mut self, after: u64, query: &Query) -> Result<Seen, ReadRefusal> {
        let watermark = drawn(&self.shelf);
        if after > watermark {
            return Err(ReadRefusal::NotDrawn { drawn: watermark });
        }
        let parts = all_parts(&self.shelf)?;
        let answer = answer(query, &parts)?;
        self.shelf.history_laws();
        meaning_laws();
        Ok(Seen { watermark, answer })
    }

    fn stand(&mut self) -> Stand {
        let drawn = drawn(&self.shelf);
        Stand {
            drawn,
            synced: drawn,
            watermark: drawn,
        }
    }
}
