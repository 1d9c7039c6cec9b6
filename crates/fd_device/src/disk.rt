ghost use Rattle.std.specs.Prelude.{◌≡◌, ◌≤◌, ◌+◌, ℕ, length, take, drop, OnOk, OnErr, IfOk};
ghost use Rattle.std.specs.Prelude.{◌↔◌, MatchResult};
ghost use Rattle.fd_device.specs.declared.files.FileId.{FileId};
ghost use Rattle.fd_device.specs.Causes.{Rose};
ghost use Rattle.fd_device.specs.Disks.{Files, written, changed, Torn, Cut, Steps, Follows};
ghost use Rattle.fd_device.specs.Disks.{NoneNew, IsDurable, Elapses};

use crate::{DiskFault, FileId};

/// Files by kind and block. A file that is not there reads as a file of length 0.
///
/// A write or a cut is on the disk only after a sync of its file. Until then a crash may leave any
/// bytes in the range that was written, and any length between. After a fault a caller must not go
/// on as if the call had done nothing: of a write or a cut that failed, any part may stand.
///
/// What is said of files holds of an honest disk alone, and no code can tell whether a disk is one.
pub trait Disk {
    /// Whether the disk is as the clauses say.
    ghost honest: { Self → Type 0 };

    /// What a read gives.
    ghost seen: { Self → Files };

    /// What a crash at this moment may leave.
    ghost may_leave: { Self → Files → Type 0 };

    /// The moment, as a number that never falls.
    ghost moment: { Self → ℕ };

    /// What a crash at some moment from that one on might have left.
    ghost left_since: { Self → ℕ → Files → Type 0 };

    /// How often the disk has failed.
    ghost faults: { Self → ℕ };

    /// The length of a file in bytes.
    fn length(&mut self, file: FileId) -> Result<u64, DiskFault>
        ensures value { honest self.old → IfOk result (λ n. n ≡ length (seen self.old file)) }
        ensures honesty { honest self.old ↔ honest self.new }
        ensures seen { honest self.old → seen self.new ≡ seen self.old }
        ensures crash { honest self.old → NoneNew (may_leave self.old) (may_leave self.new) }
        ensures time { honest self.old → Elapses (moment self.old) (moment self.new)
            (left_since self.old) (left_since self.new) (may_leave self.new) }
        ensures cause { MatchResult result (λ _. faults self.new ≡ faults self.old)
            (λ _. Rose (faults self.old) (faults self.new)) };

    /// Fills the piece with the bytes from the place `at` on.
    fn read_at(&mut self, file: FileId, at: u64, piece: &mut [u8]) -> Result<(), DiskFault>
        requires { honest self.old → at + length piece.old ≤ length (seen self.old file) }
        ensures bytes { honest self.old → OnOk result
            (piece.new ≡ take (length piece.old) (drop at (seen self.old file))) }
        ensures honesty { honest self.old ↔ honest self.new }
        ensures seen { honest self.old → seen self.new ≡ seen self.old }
        ensures crash { honest self.old → NoneNew (may_leave self.old) (may_leave self.new) }
        ensures time { honest self.old → Elapses (moment self.old) (moment self.new)
            (left_since self.old) (left_since self.new) (may_leave self.new) }
        ensures cause { MatchResult result (λ _. faults self.new ≡ faults self.old)
            (λ _. Rose (faults self.old) (faults self.new)) };

    /// Writes over what is there, and past the end.
    fn write_at(&mut self, file: FileId, at: u64, piece: &[u8]) -> Result<(), DiskFault>
        requires { honest self.old → at ≤ length (seen self.old file) }
        ensures written { honest self.old → OnOk result
            (seen self.new ≡ changed file (written at piece.now) (seen self.old)) }

        // What a failed write leaves to be read, a crash in it might have left.
        ensures failed { honest self.old → OnErr result
            (Steps file (Torn at (length piece.now)) (seen self.old) (seen self.new)) }
        ensures honesty { honest self.old ↔ honest self.new }
        ensures crash { honest self.old → Follows (Steps file (Torn at (length piece.now)))
            (may_leave self.old) (may_leave self.new) }
        ensures time { honest self.old → Elapses (moment self.old) (moment self.new)
            (left_since self.old) (left_since self.new) (may_leave self.new) }
        ensures cause { MatchResult result (λ _. faults self.new ≡ faults self.old)
            (λ _. Rose (faults self.old) (faults self.new)) };

    /// Cuts a file to a length in bytes.
    fn cut(&mut self, file: FileId, size: u64) -> Result<(), DiskFault>
        requires { honest self.old → size ≤ length (seen self.old file) }
        ensures cut { honest self.old → OnOk result
            (seen self.new ≡ changed file (take size) (seen self.old)) }
        ensures failed { honest self.old → OnErr result
            (Steps file (Cut size) (seen self.old) (seen self.new)) }
        ensures honesty { honest self.old ↔ honest self.new }
        ensures crash { honest self.old → Follows (Steps file (Cut size))
            (may_leave self.old) (may_leave self.new) }
        ensures time { honest self.old → Elapses (moment self.old) (moment self.new)
            (left_since self.old) (left_since self.new) (may_leave self.new) }
        ensures cause { MatchResult result (λ _. faults self.new ≡ faults self.old)
            (λ _. Rose (faults self.old) (faults self.new)) };

    /// Waits until what was done to the file is on the disk: after `Ok` a crash leaves of it what a
    /// read gives. After a failed sync nothing more is known of what a crash may leave than before.
    fn sync(&mut self, file: FileId) -> Result<(), DiskFault>
        ensures durable { honest self.old → OnOk result
            (IsDurable file (seen self.old) (may_leave self.new)) }
        ensures honesty { honest self.old ↔ honest self.new }
        ensures seen { honest self.old → seen self.new ≡ seen self.old }
        ensures crash { honest self.old → NoneNew (may_leave self.old) (may_leave self.new) }
        ensures time { honest self.old → Elapses (moment self.old) (moment self.new)
            (left_since self.old) (left_since self.new) (may_leave self.new) }
        ensures cause { MatchResult result (λ _. faults self.new ≡ faults self.old)
            (λ _. Rose (faults self.old) (faults self.new)) };

    /// The count of faults. It takes no memory.
    fn faults(&self) -> u64
        ensures { result ≡ faults self.now };

    /// This moment is one of those since an earlier one.
    ghost counts_now: { (disk : Self) (t : ℕ) (image : Files) → honest disk → t ≤ moment disk
        → may_leave disk image → left_since disk t image };

    /// Since this moment there is no other.
    ghost only_now: { (disk : Self) (image : Files) → honest disk
        → left_since disk (moment disk) image → may_leave disk image };
}
