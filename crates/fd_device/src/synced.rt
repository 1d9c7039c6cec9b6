ghost use Rattle.std.specs.Prelude.{◌≡◌, ◌≤◌, length, take, OnOk, OnErr, ◌↔◌, MatchResult};
ghost use Rattle.fd_device.specs.Causes.{Rose};
ghost use Rattle.fd_device.specs.Disks.{written, changed, Torn, Cut, Steps, Reaches, Follows};
ghost use Rattle.fd_device.specs.Disks.{OthersStay, IsDurable, Settled};
ghost use Rattle.fd_device.specs.Moments.{LeavesOnly};

use crate::{Disk, DiskFault, FileId};

/// Writes to a file and syncs it. It takes no memory.
pub fn write_synced<D: Disk>(
    disk: &mut D,
    file: FileId,
    at: u64,
    piece: &[u8],
) -> Result<(), DiskFault>
    requires fits { D.honest disk.old → at ≤ length (D.seen disk.old file) }
    ensures honesty { D.honest disk.old ↔ D.honest disk.new }
    ensures done { D.honest disk.old → OnOk result
        (D.seen disk.new ≡ changed file (written at piece.now) (D.seen disk.old)) }
    ensures failed { D.honest disk.old → OnErr result
        (Steps file (Torn at (length piece.now)) (D.seen disk.old) (D.seen disk.new)) }
    ensures others { D.honest disk.old
        → OthersStay file (D.seen disk.old) (D.seen disk.new) }
    ensures durable { D.honest disk.old → OnOk result
        (IsDurable file (D.seen disk.new) (D.may_leave disk.new)) }
    ensures crash { D.honest disk.old → Follows (Steps file (Torn at (length piece.now)))
        (D.may_leave disk.old) (D.may_leave disk.new) }

    // A crash at any moment leaves what it might have left before, but for a torn write of this
    // file.
    ensures any_moment { D.honest disk.old → LeavesOnly D.moment D.left_since disk.old disk.new
        (Reaches (Steps file (Torn at (length piece.now))) (D.may_leave disk.old)) }

    // The same where nothing was pending.
    ensures settled { D.honest disk.old → Settled (D.seen disk.old) (D.may_leave disk.old)
        → OnOk result (Settled (D.seen disk.new) (D.may_leave disk.new)) }
    ensures any_moment_from_settled { D.honest disk.old
        → Settled (D.seen disk.old) (D.may_leave disk.old)
        → LeavesOnly D.moment D.left_since disk.old disk.new
        (Steps file (Torn at (length piece.now)) (D.seen disk.old)) }
    ensures others_at_any_moment { D.honest disk.old
        → Settled (D.seen disk.old) (D.may_leave disk.old)
        → LeavesOnly D.moment D.left_since disk.old disk.new
        (OthersStay file (D.seen disk.old)) }
    ensures cause { MatchResult result (λ _. D.faults disk.new ≡ D.faults disk.old)
        (λ _. Rose (D.faults disk.old) (D.faults disk.new)) }
{
    disk.write_at(file, at, piece)?;
    disk.sync(file)
}

/// Cuts a file to a length and syncs it. It takes no memory.
pub fn cut_synced<D: Disk>(disk: &mut D, file: FileId, size: u64) -> Result<(), DiskFault>
    requires fits { D.honest disk.old → size ≤ length (D.seen disk.old file) }
    ensures honesty { D.honest disk.old ↔ D.honest disk.new }
    ensures done { D.honest disk.old → OnOk result
        (D.seen disk.new ≡ changed file (take size) (D.seen disk.old)) }
    ensures failed { D.honest disk.old → OnErr result
        (Steps file (Cut size) (D.seen disk.old) (D.seen disk.new)) }
    ensures others { D.honest disk.old
        → OthersStay file (D.seen disk.old) (D.seen disk.new) }
    ensures durable { D.honest disk.old → OnOk result
        (IsDurable file (D.seen disk.new) (D.may_leave disk.new)) }
    ensures crash { D.honest disk.old → Follows (Steps file (Cut size))
        (D.may_leave disk.old) (D.may_leave disk.new) }

    // A crash at any moment leaves what it might have left before, but for a part of the cut.
    ensures any_moment { D.honest disk.old → LeavesOnly D.moment D.left_since disk.old disk.new
        (Reaches (Steps file (Cut size)) (D.may_leave disk.old)) }

    // The same where nothing was pending.
    ensures settled { D.honest disk.old → Settled (D.seen disk.old) (D.may_leave disk.old)
        → OnOk result (Settled (D.seen disk.new) (D.may_leave disk.new)) }
    ensures any_moment_from_settled { D.honest disk.old
        → Settled (D.seen disk.old) (D.may_leave disk.old)
        → LeavesOnly D.moment D.left_since disk.old disk.new
        (Steps file (Cut size) (D.seen disk.old)) }
    ensures others_at_any_moment { D.honest disk.old
        → Settled (D.seen disk.old) (D.may_leave disk.old)
        → LeavesOnly D.moment D.left_since disk.old disk.new
        (OthersStay file (D.seen disk.old)) }
    ensures cause { MatchResult result (λ _. D.faults disk.new ≡ D.faults disk.old)
        (λ _. Rose (D.faults disk.old) (D.faults disk.new)) }
{
    disk.cut(file, size)?;
    disk.sync(file)
}
