ghost use Rattle.std.specs.Prelude.{◌≡◌, ◌<◌, ◌+◌, [], length, All, ℕ, Err, OnOk, None, Some, ◌↔◌};
ghost use Rattle.fd_kinds.specs.declared.limits.TheConstants.{MOST_NUMBERS};
ghost use Rattle.fd_kinds.specs.declared.store.WriteRefusal.TheVariants.{DiskFault, NoMemory};
ghost use Rattle.fd_kinds.specs.declared.store.WriteRefusal.TheVariants.{Spent};
ghost use Rattle.fd_keeper.specs.declared.faults.KeeperFault.TheVariants as keeper;
ghost use Rattle.fd_device.specs.Causes.{Rose};
ghost use Rattle.fd_device.specs.Disks.{Settled};
ghost use Rattle.fd_device.specs.Moments.{LeavesOnly};
ghost use Rattle.fd_shelf.specs.Histories.{hist};
ghost use Rattle.fd_wal.specs.Runs.{rows_in, AreNumberedFrom, IsSmallBatch};
ghost use Rattle.fd_keeper.specs.Blocks.{RecoversTo};
ghost use Rattle.fd_durable.specs.Logs.{StandsFor, IsReadyFor, HasLogged};
ghost use Rattle.fd_durable.specs.Durable.{Whole};

use fd_device::Disk;
use fd_keeper::{Keeper, KeeperFault, keeping_laws, one_recovery};
use fd_kinds::{Batches, Held, WriteRefusal};
use fd_shelf::Shelf;
use std::alloc::Global;

/// Why a batch was not logged by a keeper that was not stopped.
fn refusal(fault: KeeperFault) -> WriteRefusal
    requires { (count : ℕ) → fault ≡ keeper.Stopped count → ⊥ }
    ensures disk { (fault ≡ keeper.DiskFault) ↔ (result ≡ DiskFault) }
    ensures memory { (fault ≡ keeper.NoMemory) ↔ (result ≡ NoMemory) }
    ensures drawn { (drawn : ℕ) → result ≡ Spent drawn → ⊥ }
{
    match fault {
        KeeperFault::DiskFault => WriteRefusal::DiskFault,
        KeeperFault::NoMemory => WriteRefusal::NoMemory,
        KeeperFault::Stopped { .. } => unreachable!(),
    }
}

/// Ends the log where the next number goes to the next block.
fn make_way<D: Disk, P: Held>(
    alloc: Global,
    keeper: &mut Keeper<D>,
    shelf: &Shelf<P>,
) -> Result<(), WriteRefusal>
    requires healthy { keeper.old.fault ≡ None }
    requires count { keeper.old.synced ≡ shelf.now.mark }
    requires stands { D.honest keeper.old.disk
        → StandsFor D.seen D.may_leave keeper.old shelf.now }
    ensures honesty { D.honest keeper.old.disk ↔ D.honest keeper.new.disk }
    ensures count { keeper.new.synced ≡ keeper.old.synced }

    // A crash at any moment leaves the history.
    ensures any_moment { D.honest keeper.old.disk
        → LeavesOnly D.moment D.left_since keeper.old.disk keeper.new.disk
        (RecoversTo (hist shelf.now.book shelf.now.mark)) }
    ensures ready { D.honest keeper.old.disk
        → OnOk result (IsReadyFor D.seen D.may_leave keeper.new shelf.now) }
    ensures unwritten { result ≡ Err NoMemory → keeper.new ≡ keeper.old }
    ensures settled { D.honest keeper.old.disk
        → Settled (D.seen keeper.old.disk) (D.may_leave keeper.old.disk)
        → (result ≡ Err DiskFault → ⊥)
        → Settled (D.seen keeper.new.disk) (D.may_leave keeper.new.disk) }
    ensures healthy { OnOk result (keeper.new.fault ≡ None) }
    ensures failed { result ≡ Err DiskFault → keeper.new.fault ≡ Some (D.faults keeper.new.disk) }
    ensures drawn { (drawn : ℕ) → result ≡ Err (Spent drawn) → ⊥ }
    ensures cause { result ≡ Err DiskFault
        → Rose (D.faults keeper.old.disk) (D.faults keeper.new.disk) }
    ensures kept { (result ≡ Err DiskFault → ⊥)
        → D.faults keeper.new.disk ≡ D.faults keeper.old.disk }
{
    one_recovery();
    keeping_laws::<D>();
    shelf.is_in_order();
    shelf.history_laws();
    if shelf.next_block() <= keeper.block() {
        return Ok(());
    }
    match keeper.rotate(alloc) {
        Ok(()) => Ok(()),
        Err(fault) => Err(refusal(fault)),
    }
}

/// Adds the next batch to the log of the keeper's block, to which its number goes.
fn flush_one<D: Disk, P: Held>(
    alloc: Global,
    keeper: &mut Keeper<D>,
    shelf: &Shelf<P>,
    batches: &Batches,
) -> Result<(), WriteRefusal>
    requires healthy { keeper.old.fault ≡ None }
    requires count { keeper.old.synced ≡ shelf.now.mark }
    requires ready { D.honest keeper.old.disk
        → IsReadyFor D.seen D.may_leave keeper.old shelf.now }
    requires one { length batches.now ≡ 1 }
    requires numbered { AreNumberedFrom (shelf.now.mark + 1) batches.now }
    requires below { shelf.now.mark < MOST_NUMBERS }
    requires small { All IsSmallBatch batches.now }
    ensures honesty { D.honest keeper.old.disk ↔ D.honest keeper.new.disk }

    // A crash at any moment leaves the history, and maybe the batch.
    ensures any_moment { D.honest keeper.old.disk
        → LeavesOnly D.moment D.left_since keeper.old.disk keeper.new.disk
        (Whole (hist shelf.now.book shelf.now.mark) (rows_in batches.now)) }
    ensures count { OnOk result (keeper.new.synced ≡ shelf.now.mark + 1) }
    ensures logged { D.honest keeper.old.disk
        → OnOk result (HasLogged D.seen D.may_leave (rows_in batches.now) keeper.new shelf.now) }
    ensures unwritten { result ≡ Err NoMemory → keeper.new ≡ keeper.old }
    ensures settled { D.honest keeper.old.disk
        → Settled (D.seen keeper.old.disk) (D.may_leave keeper.old.disk)
        → (result ≡ Err DiskFault → ⊥)
        → Settled (D.seen keeper.new.disk) (D.may_leave keeper.new.disk) }
    ensures healthy { OnOk result (keeper.new.fault ≡ None) }
    ensures failed { result ≡ Err DiskFault → keeper.new.fault ≡ Some (D.faults keeper.new.disk) }
    ensures drawn { (drawn : ℕ) → result ≡ Err (Spent drawn) → ⊥ }
    ensures cause { result ≡ Err DiskFault
        → Rose (D.faults keeper.old.disk) (D.faults keeper.new.disk) }
    ensures kept { (result ≡ Err DiskFault → ⊥)
        → D.faults keeper.new.disk ≡ D.faults keeper.old.disk }
{
    one_recovery();
    keeping_laws::<D>();
    shelf.is_in_order();
    shelf.history_laws();
    let before = keeper.synced();
    match keeper.flush(alloc, batches) {
        Ok(_) => Ok(()),
        // The batch may be synced although memory ran out behind it.
        Err(KeeperFault::NoMemory) if keeper.synced() > before => Ok(()),
        Err(fault) => Err(refusal(fault)),
    }
}

/// Adds the next batch to the log that it goes to.
pub(crate) fn log<D: Disk, P: Held>(
    alloc: Global,
    keeper: &mut Keeper<D>,
    shelf: &Shelf<P>,
    batches: &Batches,
) -> Result<(), WriteRefusal>
    requires healthy { keeper.old.fault ≡ None }
    requires count { keeper.old.synced ≡ shelf.now.mark }
    requires stands { D.honest keeper.old.disk
        → StandsFor D.seen D.may_leave keeper.old shelf.now }
    requires one { length batches.now ≡ 1 }
    requires numbered { AreNumberedFrom (shelf.now.mark + 1) batches.now }
    requires below { shelf.now.mark < MOST_NUMBERS }
    requires small { All IsSmallBatch batches.now }
    ensures honesty { D.honest keeper.old.disk ↔ D.honest keeper.new.disk }

    // A crash at any moment leaves the history, and maybe the batch.
    ensures any_moment { D.honest keeper.old.disk
        → LeavesOnly D.moment D.left_since keeper.old.disk keeper.new.disk
        (Whole (hist shelf.now.book shelf.now.mark) (rows_in batches.now)) }
    ensures count { OnOk result (keeper.new.synced ≡ shelf.now.mark + 1) }
    ensures logged { D.honest keeper.old.disk
        → OnOk result (HasLogged D.seen D.may_leave (rows_in batches.now) keeper.new shelf.now) }

    // Where memory ran out no crash has left the batch, and none will.
    ensures wanting { D.honest keeper.old.disk → result ≡ Err NoMemory
        → LeavesOnly D.moment D.left_since keeper.old.disk keeper.new.disk
        (RecoversTo (hist shelf.now.book shelf.now.mark)) }
    ensures stands { D.honest keeper.old.disk → result ≡ Err NoMemory
        → StandsFor D.seen D.may_leave keeper.new shelf.now }
    ensures count_kept { result ≡ Err NoMemory → keeper.new.synced ≡ shelf.now.mark }
    ensures settled { D.honest keeper.old.disk
        → Settled (D.seen keeper.old.disk) (D.may_leave keeper.old.disk)
        → (result ≡ Err DiskFault → ⊥)
        → Settled (D.seen keeper.new.disk) (D.may_leave keeper.new.disk) }
    ensures healthy { (result ≡ Err DiskFault → ⊥) → keeper.new.fault ≡ None }
    ensures failed { result ≡ Err DiskFault → keeper.new.fault ≡ Some (D.faults keeper.new.disk) }
    ensures drawn { (drawn : ℕ) → result ≡ Err (Spent drawn) → ⊥ }
    ensures cause { result ≡ Err DiskFault
        → Rose (D.faults keeper.old.disk) (D.faults keeper.new.disk) }
    ensures kept { (result ≡ Err DiskFault → ⊥)
        → D.faults keeper.new.disk ≡ D.faults keeper.old.disk }
{
    keeping_laws::<D>();
    match make_way(alloc, keeper, shelf) {
        Ok(()) => flush_one(alloc, keeper, shelf, batches),
        Err(refusal) => Err(refusal),
    }
}
