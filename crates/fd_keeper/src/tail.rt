ghost use Rattle.std.specs.Prelude.{◌≡◌, ◌<◌, ◌+◌, ◌^◌, [], ◌∷◌, ◌++◌, length, ℕ, List, Err};
ghost use Rattle.std.specs.Prelude.{OnOk, OnErr, IfSome, ◌≤◌, ◌↔◌};
ghost use Rattle.fd_kinds.specs.History.{History};
ghost use Rattle.fd_device.specs.Disks.{Reaches, Follows, OthersStay, Settled};
ghost use Rattle.fd_device.specs.Moments.{LeavesOnly};
ghost use Rattle.fd_wal.specs.Frames.{Frame, Transactions};
ghost use Rattle.fd_keeper.specs.declared.faults.WriteFault.TheVariants.{NoMemory};
ghost use Rattle.fd_keeper.specs.Blocks.{Block, log_of, recovered, Extends};
ghost use Rattle.fd_keeper.specs.Keepers.{Rests, IsAtRest, IsNext, HasWriteCause};

use crate::append::append;
use crate::faults::WriteFault;
use fd_device::Disk;
use fd_kinds::Bytes;
use fd_wal::log_growth;

/// The greatest place of a gate, in bytes, and the greatest number of a block.
pub(crate) const MOST_PLACES: u64 = 1 << 63;

/// Where the next frame goes.
#[derive(Clone, Copy, Debug, PartialEq, Eq)]
pub(crate) struct Tail {
    /// The active block.
    pub block: u64,
    /// The place of the closed gate with which its log ends.
    pub gate: u64,
    /// How many batches are synced.
    pub synced: u64,
}

/// The place behind a frame, which ends with a gate, and none where it is too great.
pub(crate) fn place_behind(gate: u64, frame: &[u8]) -> Option<u64>
    ensures { IfSome result (λ place. (place ≡ gate + length frame.now) × (place ≤ 2 ^ 63)) }
{
    let place = gate.checked_add(frame.len() as u64)?;
    if place > MOST_PLACES {
        return None;
    }
    Some(place)
}

/// Adds the frame of so many batches to the active block's log.
pub(crate) fn add_frame<D: Disk>(
    disk: &mut D,
    tail: &mut Tail,
    frame: Bytes,
    count: u64,
) -> Result<(), WriteFault>
    requires below { tail.old.synced + count < 2 ^ 63 }
    requires rests { D.honest disk.old → IsAtRest D.seen D.may_leave disk.old tail.old.block
        tail.old.gate tail.old.synced }
    ensures honesty { D.honest disk.old ↔ D.honest disk.new }
    ensures block { tail.new.block ≡ tail.old.block }
    ensures ok { OnOk result (tail.new.synced ≡ tail.old.synced + count) }
    ensures err { OnErr result (tail.new ≡ tail.old) }
    ensures any_moment { D.honest disk.old → (closed : List Block) (active : List Frame)
        (number : ℕ) (batches : History) → Rests D.seen D.may_leave disk.old tail.old.block
        tail.old.gate tail.old.synced closed active → IsNext closed active frame number batches
        → LeavesOnly D.moment D.left_since disk.old disk.new
        (Extends (recovered closed active) batches) }
    ensures others { D.honest disk.old → LeavesOnly D.moment D.left_since disk.old disk.new
        (Reaches (OthersStay (log_of tail.old.block)) (D.may_leave disk.old)) }
    ensures crash { D.honest disk.old
        → Follows (OthersStay (log_of tail.old.block)) (D.may_leave disk.old) (D.may_leave disk.new) }
    ensures added { D.honest disk.old → (closed : List Block) (active : List Frame)
        (number : ℕ) (batches : History) → Rests D.seen D.may_leave disk.old tail.old.block
        tail.old.gate tail.old.synced closed active → IsNext closed active frame number batches
        → count ≡ length batches → OnOk result (Rests D.seen D.may_leave disk.new
        tail.new.block tail.new.gate tail.new.synced closed
        (active ++ Transactions number batches ∷ [])) }
    ensures untouched { result ≡ Err NoMemory → disk.new ≡ disk.old }
    ensures settled { D.honest disk.old → Settled (D.seen disk.old) (D.may_leave disk.old)
        → OnOk result (Settled (D.seen disk.new) (D.may_leave disk.new)) }
    ensures cause { HasWriteCause (D.faults disk.old) (D.faults disk.new) result }
{
    log_growth();
    let mut bytes = frame;
    bytes.push(0)?;
    let Some(place) = place_behind(tail.gate, bytes.as_slice()) else {
        return Err(WriteFault::NoMemory);
    };
    append(disk, tail.block, tail.gate, bytes.as_slice())?;
    tail.gate = place;
    tail.synced += count;
    Ok(())
}
