//! Laws of what files stand for, and of what a keeper does to it, as contracts of functions that
//! do nothing.

ghost use Rattle.std.specs.Prelude.{◌≡◌, ◌≤◌, ◌+◌, ◌-◌, ◌++◌, [], ◌∷◌, ℕ, List, length, take};
ghost use Rattle.std.specs.Prelude.{true, false};
ghost use Rattle.fd_kinds.specs.History.{History};
ghost use Rattle.fd_device.specs.declared.files.FileId.{FileId};
ghost use Rattle.fd_device.specs.Disks.{Files, Settled, same_file};
ghost use Rattle.fd_wal.specs.Frames.{Frame};
ghost use Rattle.fd_wal.specs.Logs.{IsLog, history_of, is_rotated};
ghost use Rattle.fd_keeper.specs.Blocks.{Block, log_of, history_in, Recovers, recovered};
ghost use Rattle.fd_keeper.specs.Blocks.{RecoversTo, IsDamagedAt, Logged, IsLogged, LeadOn};
ghost use Rattle.fd_keeper.specs.Keepers.{EndsWithClosedGate, Kept, Rests, Stands, HasAdded, ended};

use fd_device::Disk;
use fd_wal::{log_or_damage, one_damage, one_log};

/// Files recover to one list of blocks, and so to one history.
pub fn one_recovery()
    ensures closed { (files : Files) (closed others : List Block) (active frames : List Frame)
        → Recovers files closed active → Recovers files others frames → closed ≡ others }
    ensures active { (files : Files) (closed others : List Block) (active frames : List Frame)
        → Recovers files closed active → Recovers files others frames → active ≡ frames }
    ensures history { (files : Files) (history other : History)
        → RecoversTo history files → RecoversTo other files → history ≡ other }
{
    one_log();
}

/// Damaged files are so at one place.
pub fn one_damaged_place()
    ensures file { (files : Files) (file other : FileId) (at place : ℕ)
        → IsDamagedAt files file at → IsDamagedAt files other place → file ≡ other }
    ensures place { (files : Files) (file other : FileId) (at place : ℕ)
        → IsDamagedAt files file at → IsDamagedAt files other place → at ≡ place }
{
    one_log();
    log_or_damage();
    one_damage();
}

/// Files recover by the files of the blocks that they reach. Others that have the same files there
/// recover to the same, also where the log of the active block has other bytes for its frames. A
/// block whose log is ended leads on to the next.
pub fn recovery_laws()
    ensures alike { (files image : Files) (closed : List Block) (active : List Frame) (gate : ℕ)
        → Recovers files closed active
        → ((f : FileId) → f.block ≤ length closed
        → same_file f (log_of (length closed)) ≡ false → image f ≡ files f)
        → IsLog (image (log_of (length closed))) (1 + length (history_in closed)) active gate
        → Recovers image closed active }
    ensures further { (files : Files) (closed : List Block) (frames : List Frame)
        → LeadOn files 0 1 closed
        → IsLogged files (length closed) (1 + length (history_in closed)) frames
        → is_rotated frames ≡ true → LeadOn files 0 1 (closed ++ Logged frames ∷ []) }
    ensures history { (closed : List Block) (frames : List Frame)
        → history_in (closed ++ Logged frames ∷ []) ≡ history_in closed ++ history_of frames }
{}

/// No files both recover and are damaged, be it a log that is or a seal.
pub fn recovery_or_damage()
    ensures { (files : Files) (closed : List Block) (active : List Frame) (file : FileId) (at : ℕ)
        → Recovers files closed active → IsDamagedAt files file at → ⊥ }
{
    one_log();
    log_or_damage();
}

/// A disk on which nothing is pending recovers in each image as a read of it does, and a keeper
/// may go on there, where the active block's log ends with its closed gate.
pub fn settled_laws<D: Disk>()
    ensures images { (disk : D) (closed : List Block) (active : List Frame) (image : Files)
        → Settled (D.seen disk) (D.may_leave disk) → Recovers (D.seen disk) closed active
        → D.may_leave disk image → Recovers image closed active }
    ensures rests { (disk : D) (gate : ℕ) (closed : List Block) (active : List Frame)
        → Settled (D.seen disk) (D.may_leave disk) → Recovers (D.seen disk) closed active
        → IsLog (D.seen disk (log_of (length closed))) (1 + length (history_in closed)) active gate
        → EndsWithClosedGate gate (D.seen disk (log_of (length closed)))
        → Rests D.seen D.may_leave disk (length closed) gate (length (recovered closed active))
        closed active }
{}

/// What a keeper stands for: a crash leaves its history, of which each batch is synced. What
/// `flush` adds is so many of the batches as were synced in it, and `rotate` changes no history.
pub fn keeping_laws<D: Disk>()
    ensures images { (kept : Kept D) (closed : List Block) (active : List Frame) (image : Files)
        → Stands D.seen D.may_leave kept closed active → D.may_leave kept.disk image
        → RecoversTo (recovered closed active) image }
    ensures synced { (kept : Kept D) (closed : List Block) (active : List Frame)
        → Stands D.seen D.may_leave kept closed active
        → kept.synced ≡ length (recovered closed active) }
    ensures added { (old new : Kept D) (closed : List Block) (active : List Frame)
        (batches : History) → HasAdded D.seen D.may_leave old closed active batches new
        → (frames : List Frame) × Stands D.seen D.may_leave new closed frames
        × (recovered closed frames
        ≡ recovered closed active ++ take (new.synced - old.synced) batches) }
    ensures ended { (closed : List Block) (active : List Frame) (hi : ℕ)
        → recovered (ended closed active hi) [] ≡ recovered closed active }
{}
