ghost use Rattle.std.specs.Prelude.{◌≡◌, ◌<◌, ◌≤◌, ◌+◌, ◌-◌, ◌^◌, [], ◌∷◌, ◌++◌, ℕ, List};
ghost use Rattle.std.specs.Prelude.{length, take, drop, slice_range, All, Err, IfOk, OnOk, OnErr, ◌↔◌};
ghost use Rattle.fd_device.specs.Disks.{Reaches, Follows, OthersStay, Settled};
ghost use Rattle.fd_device.specs.Moments.{LeavesOnly};
ghost use Rattle.fd_wal.specs.Frames.{Frame, Transactions};
ghost use Rattle.fd_wal.specs.Runs.{rows_in, AreNumberedFrom, IsSmallBatch};
ghost use Rattle.fd_keeper.specs.declared.faults.WriteFault.TheVariants.{DiskFault, NoMemory};
ghost use Rattle.fd_keeper.specs.Blocks.{Block, log_of, recovered, Extends};
ghost use Rattle.fd_keeper.specs.Keepers.{Rests, IsAtRest, Gains, HasAtLeast, HasRoom};
ghost use Rattle.fd_keeper.specs.Keepers.{HasWriteCause};

use crate::faults::WriteFault;
use crate::tail::{Tail, add_frame};
use fd_device::Disk;
use fd_kinds::Batches;
use fd_wal::transactions;
use std::alloc::Global;

/// Adds the frame of as many of the batches from the place `from` on as a frame may have, and
/// answers the place behind them.
fn add_run<D: Disk>(
    alloc: Global,
    disk: &mut D,
    tail: &mut Tail,
    batches: &Batches,
    from: usize,
) -> Result<usize, WriteFault>
    requires from { from < length batches.now }
    requires numbered { AreNumberedFrom (tail.old.synced + 1) (drop from batches.now) }
    requires below { tail.old.synced + (length batches.now - from) < 2 ^ 63 }
    requires small { All IsSmallBatch (drop from batches.now) }
    requires rests { D.honest disk.old → IsAtRest D.seen D.may_leave disk.old tail.old.block
        tail.old.gate tail.old.synced }
    ensures honesty { D.honest disk.old ↔ D.honest disk.new }
    ensures block { tail.new.block ≡ tail.old.block }
    ensures further { IfOk result (λ next. from < next) }
    ensures within { IfOk result (λ next. next ≤ length batches.now) }
    ensures ok { IfOk result (λ next. tail.new.synced + from ≡ tail.old.synced + next) }
    ensures err { OnErr result (tail.new ≡ tail.old) }
    ensures any_moment { D.honest disk.old → (closed : List Block) (active : List Frame)
        → Rests D.seen D.may_leave disk.old tail.old.block tail.old.gate tail.old.synced closed active
        → HasRoom active (rows_in (drop from batches.now))
        → LeavesOnly D.moment D.left_since disk.old disk.new
        (Extends (recovered closed active) (rows_in (drop from batches.now))) }
    ensures others { D.honest disk.old → LeavesOnly D.moment D.left_since disk.old disk.new
        (Reaches (OthersStay (log_of tail.old.block)) (D.may_leave disk.old)) }
    ensures crash { D.honest disk.old
        → Follows (OthersStay (log_of tail.old.block)) (D.may_leave disk.old) (D.may_leave disk.new) }
    ensures added { D.honest disk.old → (closed : List Block) (active : List Frame)
        → Rests D.seen D.may_leave disk.old tail.old.block tail.old.gate tail.old.synced closed active
        → HasRoom active (rows_in (drop from batches.now))
        → IfOk result (λ next. Rests D.seen D.may_leave disk.new tail.new.block tail.new.gate
        tail.new.synced closed (active ++ Transactions (tail.old.synced + 1)
        (rows_in (take (next - from) (drop from batches.now))) ∷ [])) }
    ensures untouched { result ≡ Err NoMemory → disk.new ≡ disk.old }
    ensures settled { D.honest disk.old → Settled (D.seen disk.old) (D.may_leave disk.old)
        → OnOk result (Settled (D.seen disk.new) (D.may_leave disk.new)) }
    ensures cause { HasWriteCause (D.faults disk.old) (D.faults disk.new) result }
{
    let (frame, next) = transactions(alloc, batches, from)?;
    add_frame(disk, tail, frame, (next - from) as u64)?;
    Ok(next)
}

/// Adds batches in as few frames as hold them. After want of memory those of whole frames are
/// added.
pub(crate) fn add_all<D: Disk>(
    alloc: Global,
    disk: &mut D,
    tail: &mut Tail,
    batches: &Batches,
) -> Result<(), WriteFault>
    requires numbered { AreNumberedFrom (tail.old.synced + 1) batches.now }
    requires below { tail.old.synced + length batches.now < 2 ^ 63 }
    requires small { All IsSmallBatch batches.now }
    requires rests { D.honest disk.old → IsAtRest D.seen D.may_leave disk.old tail.old.block
        tail.old.gate tail.old.synced }
    requires room { D.honest disk.old → (closed : List Block) (active : List Frame)
        → Rests D.seen D.may_leave disk.old tail.old.block tail.old.gate tail.old.synced closed active
        → HasRoom active (rows_in batches.now) }
    ensures honesty { D.honest disk.old ↔ D.honest disk.new }
    ensures block { tail.new.block ≡ tail.old.block }
    ensures below { tail.new.synced < 2 ^ 63 }
    ensures least { tail.old.synced ≤ tail.new.synced }
    ensures most { tail.new.synced ≤ tail.old.synced + length batches.now }
    ensures ok { OnOk result (tail.new.synced ≡ tail.old.synced + length batches.now) }
    ensures any_moment { D.honest disk.old → (closed : List Block) (active : List Frame)
        → Rests D.seen D.may_leave disk.old tail.old.block tail.old.gate tail.old.synced closed active
        → LeavesOnly D.moment D.left_since disk.old disk.new
        (Extends (recovered closed active) (rows_in batches.now)) }
    ensures others { D.honest disk.old → LeavesOnly D.moment D.left_since disk.old disk.new
        (Reaches (OthersStay (log_of tail.old.block)) (D.may_leave disk.old)) }
    ensures added { D.honest disk.old → (closed : List Block) (active : List Frame)
        → Rests D.seen D.may_leave disk.old tail.old.block tail.old.gate tail.old.synced closed active
        → (result ≡ Err DiskFault → ⊥) → Gains D.seen D.may_leave disk.new tail.new.block
        tail.new.gate tail.new.synced tail.old.synced closed active (rows_in batches.now) }
    ensures faulted { D.honest disk.old → (closed : List Block) (active : List Frame)
        → Rests D.seen D.may_leave disk.old tail.old.block tail.old.gate tail.old.synced closed active
        → result ≡ Err DiskFault → HasAtLeast D.seen D.may_leave disk.new tail.new.synced
        tail.old.synced closed active (rows_in batches.now) }
    ensures settled { D.honest disk.old → Settled (D.seen disk.old) (D.may_leave disk.old)
        → (result ≡ Err DiskFault → ⊥) → Settled (D.seen disk.new) (D.may_leave disk.new) }
    ensures untouched { result ≡ Err NoMemory → tail.new.synced ≡ tail.old.synced
        → (disk.new ≡ disk.old) × (tail.new ≡ tail.old) }
    ensures cause { HasWriteCause (D.faults disk.old) (D.faults disk.new) result }
{
    let mut from = 0;
    while from < batches.len() {
        let next = match add_run(alloc, disk, tail, batches, from) {
            Ok(next) => next,
            Err(WriteFault::NoMemory) => return Err(WriteFault::NoMemory),
            Err(WriteFault::DiskFault) => return Err(WriteFault::DiskFault),
        };
        from = next;
    }
    Ok(())
}
