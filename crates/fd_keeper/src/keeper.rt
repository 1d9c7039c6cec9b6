ghost use Rattle.std.specs.Prelude.{◌≡◌, ◌<◌, ◌≤◌, ◌+◌, ◌^◌, ℕ, List, length, All, Some, None, Ok, Err};
ghost use Rattle.std.specs.Prelude.{IfOk, OnOk, OnErr, ◌↔◌, []};
ghost use Rattle.fd_device.specs.Disks.{Reaches, OthersStay, Settled};
ghost use Rattle.fd_device.specs.Moments.{LeavesOnly};
ghost use Rattle.fd_wal.specs.Frames.{Frame};
ghost use Rattle.fd_wal.specs.Logs.{history_of};
ghost use Rattle.fd_wal.specs.Runs.{rows_in, AreNumberedFrom, IsSmallBatch};
ghost use Rattle.fd_keeper.specs.declared.faults.KeeperFault.TheVariants.{DiskFault, NoMemory, Stopped};
ghost use Rattle.fd_keeper.specs.Blocks.{Block, log_of, recovered, RecoversTo, Extends};
ghost use Rattle.fd_keeper.specs.Keepers.{IsAtRest, Stands, HasAdded, HasAtLeast, HasRoom};
ghost use Rattle.fd_keeper.specs.Keepers.{OthersAt, ended, HasCause, KeepsCount};

use crate::faults::{KeeperFault, WriteFault};
use crate::rotation::end_log;
use crate::runs::add_all;
use crate::tail::Tail;
use fd_device::Disk;
use fd_kinds::Batches;
use std::alloc::Global;
use std::marker::Model;

/// Keeps the batches of a store on a disk, in the log of the active block. Nobody else may write to
/// the disk meanwhile. Once the disk has failed the keeper is stopped: each later call that can
/// fail answers so, and the disk is touched no more.
#[derive(Drop)]
pub struct Keeper<D: Disk> {
    disk: D,
    tail: Tail,
    fault: Option<u64>,
}

impl<D: Disk> Model for Keeper<D> {
    ghost use Rattle.fd_keeper.specs.Keepers.{Kept, IsSound};

    ghost Value = { Kept D };

    ghost view = { λ k. record {
      disk = k.disk;
      block = k.tail.block;
      gate = k.tail.gate;
      synced = k.tail.synced;
      fault = k.fault;
    } };

    ghost invariant = { λ k. IsSound D.honest D.seen D.may_leave (record {
      disk = k.disk;
      block = k.tail.block;
      gate = k.tail.gate;
      synced = k.tail.synced;
      fault = k.fault;
    }) };
}

/// What a keeper keeps of a disk that has failed.
fn count_of<D: Disk>(disk: &D) -> Option<u64>
    ensures { result ≡ Some (D.faults disk.now) }
{
    Some(disk.faults())
}

impl<D: Disk> Keeper<D> {
    /// A keeper that goes on where a recovery has ended: in the active block, whose log ends with
    /// its closed gate at `gate`, behind so many batches. It takes no memory.
    pub fn resume(disk: D, block: u64, gate: u64, synced: u64) -> Keeper<D>
        requires below { synced < 2 ^ 63 }
        requires rests { D.honest disk → IsAtRest D.seen D.may_leave disk block gate synced }
        ensures disk { result.disk ≡ disk }
        ensures block { result.block ≡ block }
        ensures gate { result.gate ≡ gate }
        ensures synced { result.synced ≡ synced }
        ensures healthy { result.fault ≡ None }
    {
        let tail = Tail {
            block,
            gate,
            synced,
        };
        Keeper {
            disk,
            tail,
            fault: None,
        }
    }

    /// Adds batches to the active block, in as few frames as hold them, and answers how many
    /// batches are synced then. After want of memory `synced` tells how many are.
    pub fn flush(&mut self, alloc: Global, batches: &Batches) -> Result<u64, KeeperFault>
        requires numbered { AreNumberedFrom (self.old.synced + 1) batches.now }
        requires below { self.old.synced + length batches.now < 2 ^ 63 }
        requires small { All IsSmallBatch batches.now }
        requires room { D.honest self.old.disk → (closed : List Block) (active : List Frame)
            → Stands D.seen D.may_leave self.old closed active
            → HasRoom active (rows_in batches.now) }
        ensures honesty { D.honest self.old.disk ↔ D.honest self.new.disk }
        ensures block { self.new.block ≡ self.old.block }
        ensures synced { IfOk result (λ number. number ≡ self.new.synced) }
        ensures all { IfOk result (λ number. number ≡ self.old.synced + length batches.now) }
        ensures least { self.old.synced ≤ self.new.synced }
        ensures most { self.new.synced ≤ self.old.synced + length batches.now }

        // A crash at any moment leaves the history from before and the first of the batches.
        ensures any_moment { D.honest self.old.disk → (closed : List Block) (active : List Frame)
            → Stands D.seen D.may_leave self.old closed active
            → LeavesOnly D.moment D.left_since self.old.disk self.new.disk
            (Extends (recovered closed active) (rows_in batches.now)) }

        // Where memory ran out before a batch was synced, nothing was written.
        ensures unwritten { result ≡ Err NoMemory → self.new.synced ≡ self.old.synced
            → self.new ≡ self.old }

        // Only the log of the active block changes.
        ensures others { D.honest self.old.disk
            → LeavesOnly D.moment D.left_since self.old.disk self.new.disk
            (Reaches (OthersStay (log_of self.old.block)) (D.may_leave self.old.disk)) }

        // Afterwards a crash leaves the batches that are synced, unless the disk failed.
        ensures added { D.honest self.old.disk → (closed : List Block) (active : List Frame)
            → Stands D.seen D.may_leave self.old closed active → (result ≡ Err DiskFault → ⊥)
            → HasAdded D.seen D.may_leave self.old closed active (rows_in batches.now) self.new }

        // After a fault of the disk it leaves them too, and maybe the first of the others.
        ensures faulted { D.honest self.old.disk → (closed : List Block) (active : List Frame)
            → Stands D.seen D.may_leave self.old closed active → result ≡ Err DiskFault
            → HasAtLeast D.seen D.may_leave self.new.disk self.new.synced self.old.synced closed
            active (rows_in batches.now) }
        ensures settled { D.honest self.old.disk
            → Settled (D.seen self.old.disk) (D.may_leave self.old.disk)
            → (result ≡ Err DiskFault → ⊥)
            → Settled (D.seen self.new.disk) (D.may_leave self.new.disk) }
        ensures stopped { (count : ℕ)
            → (result ≡ Err (Stopped count)) ↔ (self.old.fault ≡ Some count) }
        ensures untouched { (count : ℕ) → self.old.fault ≡ Some count → self.new ≡ self.old }
        ensures fault { KeepsCount self.old.fault (D.faults self.new.disk) self.new.fault result }
        ensures cause { HasCause (D.faults self.old.disk) (D.faults self.new.disk) result }
    {
        if let Some(count) = self.fault {
            return Err(KeeperFault::Stopped { count });
        }
        match add_all(alloc, &mut self.disk, &mut self.tail, batches) {
            Ok(()) => Ok(self.tail.synced),
            Err(WriteFault::NoMemory) => Err(KeeperFault::NoMemory),
            Err(WriteFault::DiskFault) => {
                self.fault = count_of(&self.disk);
                Err(KeeperFault::DiskFault)
            }
        }
    }

    /// Ends the active block's log with a rotation, and goes on in the next block, which is empty
    /// then.
    pub fn rotate(&mut self, alloc: Global) -> Result<(), KeeperFault>
        requires some { 0 < self.old.synced }
        requires used { D.honest self.old.disk → (closed : List Block) (active : List Frame)
            → Stands D.seen D.may_leave self.old closed active
            → 0 < length (history_of active) }
        ensures honesty { D.honest self.old.disk ↔ D.honest self.new.disk }
        ensures synced { self.new.synced ≡ self.old.synced }
        ensures ok { OnOk result (self.new.block ≡ self.old.block + 1) }
        ensures err { OnErr result (self.new.block ≡ self.old.block) }

        // A crash at any moment leaves the same history.
        ensures any_moment { D.honest self.old.disk → (closed : List Block) (active : List Frame)
            → Stands D.seen D.may_leave self.old closed active
            → LeavesOnly D.moment D.left_since self.old.disk self.new.disk
            (RecoversTo (recovered closed active)) }

        // Only the log of the active block and the seal and the log of the next one change.
        ensures others { D.honest self.old.disk
            → LeavesOnly D.moment D.left_since self.old.disk self.new.disk
            (Reaches (OthersAt self.old.block) (D.may_leave self.old.disk)) }
        ensures ended { D.honest self.old.disk → (closed : List Block) (active : List Frame)
            → Stands D.seen D.may_leave self.old closed active → OnOk result
            (Stands D.seen D.may_leave self.new (ended closed active self.old.synced) []) }
        ensures wanting { result ≡ Err NoMemory → self.new ≡ self.old }
        ensures settled { D.honest self.old.disk
            → Settled (D.seen self.old.disk) (D.may_leave self.old.disk)
            → (result ≡ Err DiskFault → ⊥)
            → Settled (D.seen self.new.disk) (D.may_leave self.new.disk) }
        ensures stopped { (count : ℕ)
            → (result ≡ Err (Stopped count)) ↔ (self.old.fault ≡ Some count) }
        ensures untouched { (count : ℕ) → self.old.fault ≡ Some count → self.new ≡ self.old }
        ensures fault { KeepsCount self.old.fault (D.faults self.new.disk) self.new.fault result }
        ensures cause { HasCause (D.faults self.old.disk) (D.faults self.new.disk) result }
    {
        if let Some(count) = self.fault {
            return Err(KeeperFault::Stopped { count });
        }
        match end_log(alloc, &mut self.disk, &mut self.tail) {
            Ok(()) => Ok(()),
            Err(WriteFault::NoMemory) => Err(KeeperFault::NoMemory),
            Err(WriteFault::DiskFault) => {
                self.fault = count_of(&self.disk);
                Err(KeeperFault::DiskFault)
            }
        }
    }

    /// How many batches are synced. It takes no memory.
    pub fn synced(&self) -> u64
        ensures value { result ≡ self.now.synced }
        ensures below { result < 2 ^ 63 }
    {
        self.tail.synced
    }

    /// The number of the active block. It takes no memory.
    pub fn block(&self) -> u64
        ensures { result ≡ self.now.block }
    {
        self.tail.block
    }

    /// The disk's count of faults after the call that met one, and none where no call did. It
    /// takes no memory.
    pub fn fault_count(&self) -> Option<u64>
        ensures { result ≡ self.now.fault }
    {
        self.fault
    }

    /// The disk. It takes no memory.
    pub fn close(self) -> D
        ensures { result ≡ self.disk }
    {
        let Keeper { disk, .. } = self;
        disk
    }
}
