ghost use Rattle.std.specs.Prelude.{◌≡◌, ◌≢◌, ◌≤◌, ◌<◌, ◌+◌, ◌^◌, [], ℕ, List, length, OnOk, IfOk};
ghost use Rattle.std.specs.Prelude.{IfErr, None};
ghost use Rattle.std.specs.Prelude.{◌↔◌, MatchResult};
ghost use Rattle.fd_kinds.specs.History.{History};
ghost use Rattle.fd_device.specs.declared.files.FileId.{FileId as File};
ghost use Rattle.fd_device.specs.Disks.{Settled};
ghost use Rattle.fd_device.specs.Moments.{LeavesOnly};
ghost use Rattle.fd_shelf.specs.Steps.{empty_book};
ghost use Rattle.fd_wal.specs.Frames.{Frame};
ghost use Rattle.fd_keeper.specs.Blocks.{Block, Recovers, RecoversTo, IsDamagedAt};
ghost use Rattle.fd_open.specs.Barriers.{Quiet, Barred, IsPlaced, IsDurableAt, IsDurableFrom};
ghost use Rattle.fd_open.specs.Causes.{HasOpenCause, HasCauseOf, TellsBlock, TellsDamage};
ghost use Rattle.fd_open.specs.Causes.{NamesDamage, NamesNone};
ghost use Rattle.fd_open.specs.Opens.{Opens, IsOpened};
ghost use Rattle.fd_open.specs.Shelving.{GoesOn, AddsBlock, Reads};

use crate::cause::OpenCause;
use crate::reading::{read_block, sync_block};
use crate::shelving::{add_block, last_number, next_number};
use crate::tail::{Tail, repair};
use fd_device::Disk;
use fd_keeper::{Keeper, one_damaged_place, one_recovery, recovery_laws, recovery_or_damage};
use fd_part::Part;
use fd_shelf::Shelf;
use std::alloc::Global;

/// An opened store: a shelf with its batches, and what keeps further ones.
#[derive(Drop)]
pub struct Reopened<D: Disk> {
    pub shelf: Shelf<Part>,
    pub keeper: Keeper<D>,
}

/// The disk of a store that was not opened.
#[derive(Drop)]
pub struct NotOpened<D: Disk> {
    pub disk: D,
    pub cause: OpenCause,
}

/// Syncs the files of the next block, reads them, and adds its batches to the shelf. It answers
/// where its log ends, or nothing where another block follows.
fn open_block<D: Disk>(
    alloc: Global,
    disk: &mut D,
    shelf: &mut Shelf<Part>,
) -> Result<Option<Tail>, OpenCause>
    requires empty { shelf.old.book.active ≡ [] }
    requires alone { shelf.old.book.stragglers ≡ [] }
    ensures quiet { Quiet D.honest D.seen D.may_leave D.moment D.left_since disk.old disk.new }
    ensures durable { D.honest disk.old → OnOk result (IsDurableAt
        (length shelf.old.book.closed) (D.seen disk.old) (D.may_leave disk.new)) }
    ensures adds { D.honest disk.old
        → IfOk result (AddsBlock (D.seen disk.old) shelf.old shelf.new) }
    ensures next { IfOk result (λ tail. GoesOn shelf.old tail shelf.new) }
    ensures alone { OnOk result (shelf.new.book.stragglers ≡ []) }
    ensures below { shelf.old.mark < 2 ^ 63 }
    ensures damaged { D.honest disk.old → IfErr result
        (TellsBlock (D.seen disk.old) (length shelf.old.book.closed) (shelf.old.mark + 1)) }
    ensures cause { HasOpenCause (D.faults disk.old) (D.faults disk.new) result }
{
    let block = shelf.active();
    let first = next_number(shelf);
    sync_block(disk, block)?;
    let found = match read_block(alloc, disk, block, first) {
        Ok(found) => found,
        Err(cause) => return Err(cause),
    };
    let tail = add_block(shelf, &found)?;
    Ok(tail)
}

/// Syncs and reads the files of block after block, and adds their batches to an empty shelf. It
/// answers where the log of the active one ends.
fn open_blocks<D: Disk>(
    alloc: Global,
    disk: &mut D,
    shelf: &mut Shelf<Part>,
) -> Result<Tail, OpenCause>
    requires empty { shelf.old.book ≡ empty_book }
    requires mark { shelf.old.mark ≡ 0 }
    ensures quiet { Quiet D.honest D.seen D.may_leave D.moment D.left_since disk.old disk.new }
    ensures read { D.honest disk.old
        → IfOk result (Reads D.seen D.may_leave disk.old disk.new shelf.new) }
    ensures placed { IfOk result IsPlaced }
    ensures alone { OnOk result (shelf.new.book.stragglers ≡ []) }
    ensures damaged { D.honest disk.old → IfErr result (TellsDamage (D.seen disk.old)) }
    ensures cause { HasOpenCause (D.faults disk.old) (D.faults disk.new) result }
{
    recovery_laws();
    loop {
        match open_block(alloc, disk, shelf) {
            Ok(Some(tail)) => return Ok(tail),
            Ok(None) => {}
            Err(cause) => return Err(cause),
        }
    }
}

/// Opens a store in place: reads its blocks, and then repairs the end of the active log. All memory
/// is taken before that.
fn open_in_place<D: Disk>(
    alloc: Global,
    disk: &mut D,
    shelf: &mut Shelf<Part>,
) -> Result<u64, OpenCause>
    requires empty { shelf.old.book ≡ empty_book }
    requires mark { shelf.old.mark ≡ 0 }
    ensures honesty { D.honest disk.old ↔ D.honest disk.new }
    ensures barred { D.honest disk.old
        → Barred D.honest D.seen D.may_leave D.moment D.left_since disk.old disk.new }
    ensures any_moment { D.honest disk.old → Settled (D.seen disk.old) (D.may_leave disk.old)
        → (history : History) → RecoversTo history (D.seen disk.old)
        → LeavesOnly D.moment D.left_since disk.old disk.new (RecoversTo history) }
    ensures opens { D.honest disk.old
        → IfOk result (Opens D.seen D.may_leave disk.old disk.new shelf.new) }
    ensures alone { OnOk result (shelf.new.book.stragglers ≡ []) }
    ensures unwritten { IfErr result (λ cause. cause ≢ OpenCause.DiskFault
        → Quiet D.honest D.seen D.may_leave D.moment D.left_since disk.old disk.new) }
    ensures settled { D.honest disk.old → OnOk result (IsDurableFrom
        (length shelf.new.book.closed + 1) (D.seen disk.old) (D.may_leave disk.old)
        → Settled (D.seen disk.new) (D.may_leave disk.new)) }
    ensures damaged { D.honest disk.old → IfErr result (TellsDamage (D.seen disk.old)) }
    ensures cause { HasOpenCause (D.faults disk.old) (D.faults disk.new) result }
{
    one_recovery();
    recovery_laws();
    let tail = match open_blocks(alloc, disk, shelf) {
        Ok(tail) => tail,
        Err(cause) => return Err(cause),
    };
    repair(disk, shelf.active(), tail)?;
    Ok(tail.gate)
}

/// Opens a store on a disk, whatever a crash left of it: the blocks are read, and the end of the
/// active log is repaired. It takes memory in proportion to the files, and all of it before the
/// repair.
pub fn reopen<D: Disk>(alloc: Global, disk: D) -> Result<Reopened<D>, NotOpened<D>>
    ensures honesty { MatchResult result (λ o. D.honest disk ↔ D.honest o.keeper.disk)
        (λ n. D.honest disk ↔ D.honest n.disk) }

    // Each file is synced before it is read: until the last one is a crash leaves what it might
    // have left before, and from there on what recovers to the history that was read.
    ensures barred { D.honest disk → MatchResult result
        (λ o. Barred D.honest D.seen D.may_leave D.moment D.left_since disk o.keeper.disk)
        (λ n. Barred D.honest D.seen D.may_leave D.moment D.left_since disk n.disk) }

    // So where nothing was pending, a crash at any moment leaves the history.
    ensures any_moment { D.honest disk → Settled (D.seen disk) (D.may_leave disk)
        → (history : History) → RecoversTo history (D.seen disk) → MatchResult result
        (λ o. LeavesOnly D.moment D.left_since disk o.keeper.disk (RecoversTo history))
        (λ n. LeavesOnly D.moment D.left_since disk n.disk (RecoversTo history)) }

    // What is opened stands for the blocks of the files.
    ensures opened { D.honest disk
        → IfOk result (λ o. IsOpened D.seen D.may_leave disk o.shelf o.keeper) }
    ensures alone { IfOk result (λ o. o.shelf.book.stragglers ≡ []) }
    ensures block { IfOk result (λ o. o.keeper.block ≡ length o.shelf.book.closed) }
    ensures synced { IfOk result (λ o. o.keeper.synced ≡ o.shelf.mark) }
    ensures healthy { IfOk result (λ o. o.keeper.fault ≡ None) }

    // Files are damaged where this is told, and this is told where they are damaged; files that
    // recover are never damaged.
    ensures damaged { D.honest disk → IfErr result (λ n. TellsDamage (D.seen disk) n.cause) }
    ensures damaged_only { D.honest disk → (file : File) → (at : ℕ)
        → IsDamagedAt (D.seen disk) file at
        → MatchResult result (λ _. ⊥) (λ n. NamesDamage file at n.cause) }
    ensures opened_only { D.honest disk → (closed : List Block) → (active : List Frame)
        → Recovers (D.seen disk) closed active → IfErr result (λ n. NamesNone n.cause) }

    // Where a file is damaged or memory was wanting, nothing was written.
    ensures unwritten { IfErr result (λ n. n.cause ≢ OpenCause.DiskFault
        → Quiet D.honest D.seen D.may_leave D.moment D.left_since disk n.disk) }

    // Nothing is pending afterwards where nothing was in the files of the blocks behind.
    ensures settled { D.honest disk → IfOk result (λ o. IsDurableFrom (o.keeper.block + 1)
        (D.seen disk) (D.may_leave disk)
        → Settled (D.seen o.keeper.disk) (D.may_leave o.keeper.disk)) }
    ensures still_settled { D.honest disk → Settled (D.seen disk) (D.may_leave disk)
        → MatchResult result (λ o. Settled (D.seen o.keeper.disk) (D.may_leave o.keeper.disk))
        (λ n. n.cause ≢ OpenCause.DiskFault → Settled (D.seen n.disk) (D.may_leave n.disk)) }
    ensures cause { MatchResult result (λ o. D.faults o.keeper.disk ≡ D.faults disk)
        (λ n. HasCauseOf (D.faults disk) (D.faults n.disk) n.cause) }
{
    one_damaged_place();
    recovery_or_damage();
    let mut disk = disk;
    let mut shelf = Shelf::new(alloc);
    match open_in_place(alloc, &mut disk, &mut shelf) {
        Ok(gate) => {
            let block = shelf.active();
            let synced = last_number(&shelf);
            shelf.is_in_order();
            let keeper = Keeper::resume(disk, block, gate, synced);
            Ok(Reopened { shelf, keeper })
        }
        Err(cause) => Err(NotOpened { disk, cause }),
    }
}
