ghost use Rattle.std.specs.Prelude.{◌≡◌, ◌<◌, ◌^◌, ◌∷◌, ◌++◌, take, OnOk, ◌↔◌, MatchResult};
ghost use Rattle.fd_device.specs.Causes.{Rose};
ghost use Rattle.fd_device.specs.Disks.{Steps, Reaches, Follows, OthersStay, IsDurable, Settled};
ghost use Rattle.fd_device.specs.Moments.{LeavesOnly};
ghost use Rattle.fd_keeper.specs.Blocks.{log_of};
ghost use Rattle.fd_keeper.specs.Keepers.{EndsWithClosedGate, Appends};

use fd_device::{Disk, DiskFault, FileId, FileKind, write_synced};

/// Writes a frame with a closed gate behind it behind the closed gate of a block's log, and then
/// opens the gate. It takes no memory.
pub(crate) fn append<D: Disk>(
    disk: &mut D,
    block: u64,
    gate: u64,
    frame: &[u8],
) -> Result<(), DiskFault>
    requires below { gate < 2 ^ 63 }
    requires ends { D.honest disk.old → EndsWithClosedGate gate (D.seen disk.old (log_of block)) }
    requires durable { D.honest disk.old
        → IsDurable (log_of block) (D.seen disk.old) (D.may_leave disk.old) }
    ensures honesty { D.honest disk.old ↔ D.honest disk.new }
    ensures done { D.honest disk.old → OnOk result (D.seen disk.new (log_of block)
        ≡ take gate (D.seen disk.old (log_of block)) ++ 1 ∷ frame.now) }
    ensures others { D.honest disk.old
        → OthersStay (log_of block) (D.seen disk.old) (D.seen disk.new) }
    ensures durable { D.honest disk.old → OnOk result
        (IsDurable (log_of block) (D.seen disk.new) (D.may_leave disk.new)) }
    ensures crash { D.honest disk.old → Follows
        (Steps (log_of block) (Appends gate frame.now)) (D.may_leave disk.old) (D.may_leave disk.new) }
    ensures any_moment { D.honest disk.old → LeavesOnly D.moment D.left_since disk.old disk.new
        (Reaches (Steps (log_of block) (Appends gate frame.now)) (D.may_leave disk.old)) }
    ensures settled { D.honest disk.old → Settled (D.seen disk.old) (D.may_leave disk.old)
        → OnOk result (Settled (D.seen disk.new) (D.may_leave disk.new)) }
    ensures cause { MatchResult result (λ _. D.faults disk.new ≡ D.faults disk.old)
        (λ _. Rose (D.faults disk.old) (D.faults disk.new)) }
{
    let log = FileId {
        kind: FileKind::Log,
        block,
    };
    write_synced(disk, log, gate + 1, frame)?;
    write_synced(disk, log, gate, &[1])
}
