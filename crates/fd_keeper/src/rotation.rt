ghost use Rattle.std.specs.Prelude.{◌≡◌, ◌<◌, ◌+◌, ◌^◌, [], ℕ, List, length, Err, OnOk, OnErr};
ghost use Rattle.std.specs.Prelude.{◌↔◌, MatchResult};
ghost use Rattle.fd_device.specs.Causes.{Rose};
ghost use Rattle.fd_device.specs.Disks.{Reaches, Follows, Settled, IsDurable};
ghost use Rattle.fd_device.specs.Moments.{LeavesOnly};
ghost use Rattle.fd_wal.specs.Frames.{Frame};
ghost use Rattle.fd_wal.specs.Logs.{history_of};
ghost use Rattle.fd_keeper.specs.declared.faults.WriteFault.TheVariants.{NoMemory};
ghost use Rattle.fd_keeper.specs.Blocks.{Block, log_of, recovered, RecoversTo};
ghost use Rattle.fd_keeper.specs.Keepers.{EndsWithClosedGate, OthersOf, OthersAt, Rests, IsAtRest};
ghost use Rattle.fd_keeper.specs.Keepers.{IsEmptyBlock, IsLast, ended, HasWriteCause};

use crate::append::append;
use crate::faults::WriteFault;
use crate::tail::{MOST_PLACES, Tail, place_behind};
use fd_device::{Disk, DiskFault, FileId, FileKind, cut_synced, write_synced};
use fd_wal::{log_growth, rotation};
use std::alloc::Global;

/// Empties the seal and the log of a block. It takes no memory.
fn clear<D: Disk>(disk: &mut D, block: u64) -> Result<(), DiskFault>
    ensures honesty { D.honest disk.old ↔ D.honest disk.new }
    ensures empty { D.honest disk.old
        → OnOk result (IsEmptyBlock D.seen D.may_leave disk.new block) }
    ensures same { D.honest disk.old
        → OnOk result (OthersOf block (D.seen disk.old) (D.seen disk.new)) }
    ensures crash { D.honest disk.old
        → OnOk result (Follows (OthersOf block) (D.may_leave disk.old) (D.may_leave disk.new)) }
    ensures any_moment { D.honest disk.old → LeavesOnly D.moment D.left_since disk.old disk.new
        (Reaches (OthersOf block) (D.may_leave disk.old)) }
    ensures settled { D.honest disk.old → Settled (D.seen disk.old) (D.may_leave disk.old)
        → OnOk result (Settled (D.seen disk.new) (D.may_leave disk.new)) }
    ensures cause { MatchResult result (λ _. D.faults disk.new ≡ D.faults disk.old)
        (λ _. Rose (D.faults disk.old) (D.faults disk.new)) }
{
    let seal = FileId {
        kind: FileKind::Seal,
        block,
    };
    let log = FileId {
        kind: FileKind::Log,
        block,
    };
    cut_synced(disk, seal, 0)?;
    cut_synced(disk, log, 0)?;
    Ok(())
}

/// Empties the seal and the log of the next block, ends the log of a block with a frame, behind
/// which a closed gate stands, and makes the next log. It takes no memory.
fn turn<D: Disk>(disk: &mut D, block: u64, gate: u64, frame: &[u8]) -> Result<(), DiskFault>
    requires below { gate < 2 ^ 63 }
    requires next { block < 2 ^ 63 }
    requires ends { D.honest disk.old → EndsWithClosedGate gate (D.seen disk.old (log_of block)) }
    requires durable { D.honest disk.old
        → IsDurable (log_of block) (D.seen disk.old) (D.may_leave disk.old) }
    ensures honesty { D.honest disk.old ↔ D.honest disk.new }
    ensures any_moment { D.honest disk.old → (closed : List Block) (active : List Frame)
        (synced hi : ℕ) → Rests D.seen D.may_leave disk.old block gate synced closed active
        → IsLast closed active frame.now hi → LeavesOnly D.moment D.left_since disk.old disk.new
        (RecoversTo (recovered closed active)) }
    ensures others { D.honest disk.old → LeavesOnly D.moment D.left_since disk.old disk.new
        (Reaches (OthersAt block) (D.may_leave disk.old)) }
    ensures turned { D.honest disk.old → (closed : List Block) (active : List Frame)
        (synced hi : ℕ) → Rests D.seen D.may_leave disk.old block gate synced closed active
        → IsLast closed active frame.now hi → OnOk result (Rests D.seen D.may_leave disk.new
        (block + 1) 0 synced (ended closed active hi) []) }
    ensures settled { D.honest disk.old → Settled (D.seen disk.old) (D.may_leave disk.old)
        → OnOk result (Settled (D.seen disk.new) (D.may_leave disk.new)) }
    ensures cause { MatchResult result (λ _. D.faults disk.new ≡ D.faults disk.old)
        (λ _. Rose (D.faults disk.old) (D.faults disk.new)) }
{
    log_growth();
    let log = FileId {
        kind: FileKind::Log,
        block: block + 1,
    };
    clear(disk, block + 1)?;
    append(disk, block, gate, frame)?;
    write_synced(disk, log, 0, &[0])?;
    Ok(())
}

/// Ends the active block's log, and goes on in that of the next block.
pub(crate) fn end_log<D: Disk>(
    alloc: Global,
    disk: &mut D,
    tail: &mut Tail,
) -> Result<(), WriteFault>
    requires some { 0 < tail.old.synced }
    requires below { tail.old.synced < 2 ^ 63 }
    requires rests { D.honest disk.old → IsAtRest D.seen D.may_leave disk.old tail.old.block
        tail.old.gate tail.old.synced }
    requires used { D.honest disk.old → (closed : List Block) (active : List Frame)
        → Rests D.seen D.may_leave disk.old tail.old.block tail.old.gate tail.old.synced closed active
        → 0 < length (history_of active) }
    ensures honesty { D.honest disk.old ↔ D.honest disk.new }
    ensures synced { tail.new.synced ≡ tail.old.synced }
    ensures ok { OnOk result (tail.new.block ≡ tail.old.block + 1) }
    ensures err { OnErr result (tail.new ≡ tail.old) }
    ensures any_moment { D.honest disk.old → (closed : List Block) (active : List Frame)
        → Rests D.seen D.may_leave disk.old tail.old.block tail.old.gate tail.old.synced closed active
        → LeavesOnly D.moment D.left_since disk.old disk.new
        (RecoversTo (recovered closed active)) }
    ensures others { D.honest disk.old → LeavesOnly D.moment D.left_since disk.old disk.new
        (Reaches (OthersAt tail.old.block) (D.may_leave disk.old)) }
    ensures ended { D.honest disk.old → (closed : List Block) (active : List Frame)
        → Rests D.seen D.may_leave disk.old tail.old.block tail.old.gate tail.old.synced closed active
        → OnOk result (Rests D.seen D.may_leave disk.new tail.new.block tail.new.gate
        tail.new.synced (ended closed active tail.old.synced) []) }
    ensures untouched { result ≡ Err NoMemory → disk.new ≡ disk.old }
    ensures settled { D.honest disk.old → Settled (D.seen disk.old) (D.may_leave disk.old)
        → OnOk result (Settled (D.seen disk.new) (D.may_leave disk.new)) }
    ensures cause { HasWriteCause (D.faults disk.old) (D.faults disk.new) result }
{
    if tail.block >= MOST_PLACES {
        return Err(WriteFault::NoMemory);
    }
    let mut frame = rotation(alloc, tail.synced)?;
    frame.push(0)?;
    let Some(_place) = place_behind(tail.gate, frame.as_slice()) else {
        return Err(WriteFault::NoMemory);
    };
    turn(disk, tail.block, tail.gate, frame.as_slice())?;
    tail.block += 1;
    tail.gate = 0;
    Ok(())
}
