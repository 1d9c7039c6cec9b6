ghost use Rattle.std.specs.Prelude.{◌≡◌, ◌≤◌, ◌<◌, ◌+◌, length, min, List, OnOk, ◌↔◌, MatchResult};
ghost use Rattle.fd_device.specs.Causes.{Rose};
ghost use Rattle.fd_device.specs.Disks.{Follows, OthersStay, Settled};
ghost use Rattle.fd_device.specs.Moments.{LeavesOnly};
ghost use Rattle.fd_wal.specs.Frames.{Frame};
ghost use Rattle.fd_keeper.specs.Blocks.{Block, log_of, recovered, RecoversTo};
ghost use Rattle.fd_keeper.specs.Keepers.{Rests};
ghost use Rattle.fd_open.specs.Barriers.{IsRead, IsPlaced, IsDurableBelow};

use fd_device::{Disk, DiskFault, FileId, FileKind, cut_synced, write_synced};
use fd_keeper::recovery_laws;

/// Where the log of the active block ends.
#[derive(Clone, Copy, Debug, PartialEq, Eq)]
pub(crate) struct Tail {
    /// The place of the closed gate.
    pub gate: u64,
    /// The length of the log in bytes, which may reach past the gate. It has none where it is
    /// empty.
    pub size: u64,
}

/// Cuts the log of a block behind its closed gate, and writes the gate; an empty log is made anew.
/// It takes no memory.
pub(crate) fn repair<D: Disk>(disk: &mut D, block: u64, tail: Tail) -> Result<(), DiskFault>
    requires placed { IsPlaced tail }
    requires size { D.honest disk.old → tail.size ≡ length (D.seen disk.old (log_of block)) }
    ensures honesty { D.honest disk.old ↔ D.honest disk.new }
    ensures any_moment { D.honest disk.old → (closed : List Block) (active : List Frame)
        → IsRead D.seen D.may_leave disk.old block tail closed active
        → LeavesOnly D.moment D.left_since disk.old disk.new
        (RecoversTo (recovered closed active)) }
    ensures rests { D.honest disk.old → (closed : List Block) (active : List Frame)
        → IsRead D.seen D.may_leave disk.old block tail closed active
        → OnOk result (Rests D.seen D.may_leave disk.new block tail.gate
        (length (recovered closed active)) closed active) }
    ensures others { D.honest disk.old
        → OthersStay (log_of block) (D.seen disk.old) (D.seen disk.new) }
    ensures crash { D.honest disk.old → OnOk result
        (Follows (OthersStay (log_of block)) (D.may_leave disk.old) (D.may_leave disk.new)) }
    ensures durable { D.honest disk.old
        → IsDurableBelow (block + 1) (D.seen disk.old) (D.may_leave disk.old)
        → OnOk result (IsDurableBelow (block + 1) (D.seen disk.new) (D.may_leave disk.new)) }
    ensures cause { MatchResult result (λ _. D.faults disk.new ≡ D.faults disk.old)
        (λ _. Rose (D.faults disk.old) (D.faults disk.new)) }
{
    recovery_laws();
    let log = FileId {
        kind: FileKind::Log,
        block,
    };
    let end = end_of(tail);
    cut_synced(disk, log, end)?;
    write_synced(disk, log, tail.gate, &[0])?;
    Ok(())
}

/// The place behind the closed gate, and the end of the log where that is empty.
fn end_of(tail: Tail) -> u64
    requires { IsPlaced tail }
    ensures { result ≡ min tail.size (tail.gate + 1) }
{
    if tail.gate < tail.size {
        tail.gate + 1
    } else {
        tail.size
    }
}
