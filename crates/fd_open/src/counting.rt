ghost use Rattle.std.specs.Prelude.{◌≡◌, ◌≤◌, ◌<◌, ◌+◌, ◌^◌, ℕ, List, length, sum_by, true, IfOk};
ghost use Rattle.std.specs.Prelude.{IfErr, IfSome, OnOk};
ghost use Rattle.std.specs.Prelude.{MatchResult};
ghost use Rattle.fd_device.specs.declared.files.FileId.{FileId as File};
ghost use Rattle.fd_wal.specs.Frames.{Frame};
ghost use Rattle.fd_wal.specs.Runs.{rows_in};
ghost use Rattle.fd_keeper.specs.Blocks.{Block, Recovers, IsDamagedAt};
ghost use Rattle.fd_open.specs.Barriers.{Quiet};
ghost use Rattle.fd_open.specs.Causes.{HasOpenCause, TellsBlock, TellsDamage, NamesDamage};
ghost use Rattle.fd_open.specs.Causes.{NamesNone};
ghost use Rattle.fd_open.specs.Counting.{IsCountOf, IsFound, CountsBlock, Counts};

use crate::cause::OpenCause;
use crate::reading::{LogFound, read_block};
use fd_device::Disk;
use fd_keeper::{one_damaged_place, one_recovery, recovery_laws, recovery_or_damage};
use fd_kinds::NumberedBatch;
use fd_lists::NoMemory;
use std::alloc::Global;

/// How many blocks the files of a disk reach, and how many batches and rows these have.
#[derive(Clone, Copy, Debug, PartialEq, Eq)]
pub struct Found {
    pub blocks: u64,
    pub numbers: u64,
    pub rows: u64,
}

/// So many rows and those of the batches, none where that is more than 64 bits hold.
fn count_rows(before: u64, batches: &[NumberedBatch]) -> Option<u64>
    ensures { IfSome result (λ rows. rows ≡ before + sum_by length (rows_in batches.now)) }
{
    let mut rows = before;
    let mut rest = batches;
    while let [batch, others @ ..] = rest {
        rows = rows.checked_add(batch.batch.rows.len() as u64)?;
        rest = others;
    }
    Some(rows)
}

/// Counts a block, of which this was found. No memory holds as many rows as 64 bits don't count.
fn count_log(found: &mut Found, log: &LogFound) -> Result<(), NoMemory>
    requires below { found.old.numbers < 2 ^ 63 }
    requires within { found.old.blocks ≤ found.old.numbers }
    requires log { IsFound (found.old.numbers + 1) log.now }
    ensures blocks { OnOk result (found.new.blocks ≡ found.old.blocks + 1) }
    ensures numbers { OnOk result (found.new.numbers
        ≡ found.old.numbers + length log.now.replayed.batches) }
    ensures rows { OnOk result (found.new.rows
        ≡ found.old.rows + sum_by length (rows_in log.now.replayed.batches)) }
    ensures below { OnOk result (found.new.numbers < 2 ^ 63) }
    ensures goes_on { OnOk result (log.now.replayed.rotated ≡ true
        → found.old.numbers < found.new.numbers) }
{
    let batches = log.replayed.batches.as_slice();
    let rows = count_rows(found.rows, batches).ok_or(NoMemory)?;
    found.rows = rows;
    found.numbers += batches.len() as u64;
    found.blocks += 1;
    Ok(())
}

/// Reads and counts the next block, and answers whether another follows.
fn count_block<D: Disk>(alloc: Global, disk: &mut D, found: &mut Found) -> Result<bool, OpenCause>
    requires below { found.old.numbers < 2 ^ 63 }
    requires within { found.old.blocks ≤ found.old.numbers }
    ensures quiet { Quiet D.honest D.seen D.may_leave D.moment D.left_since disk.old disk.new }
    ensures counts { D.honest disk.old
        → IfOk result (CountsBlock (D.seen disk.old) found.old found.new) }
    ensures blocks { OnOk result (found.new.blocks ≡ found.old.blocks + 1) }
    ensures below { OnOk result (found.new.numbers < 2 ^ 63) }
    ensures goes_on { IfOk result (λ more. more ≡ true → found.old.numbers < found.new.numbers) }
    ensures damaged { D.honest disk.old → IfErr result
        (TellsBlock (D.seen disk.old) found.old.blocks (found.old.numbers + 1)) }
    ensures cause { HasOpenCause (D.faults disk.old) (D.faults disk.new) result }
{
    let log = match read_block(alloc, disk, found.blocks, found.numbers + 1) {
        Ok(log) => log,
        Err(cause) => return Err(cause),
    };
    count_log(found, &log)?;
    Ok(log.replayed.rotated)
}

/// Reads and counts block after block.
fn count_blocks<D: Disk>(alloc: Global, disk: &mut D) -> Result<Found, OpenCause>
    ensures quiet { Quiet D.honest D.seen D.may_leave D.moment D.left_since disk.old disk.new }
    ensures counts { D.honest disk.old → IfOk result (Counts (D.seen disk.old)) }
    ensures damaged { D.honest disk.old → IfErr result (TellsDamage (D.seen disk.old)) }
    ensures cause { HasOpenCause (D.faults disk.old) (D.faults disk.new) result }
{
    recovery_laws();
    let mut found = Found {
        blocks: 0,
        numbers: 0,
        rows: 0,
    };
    loop {
        match count_block(alloc, disk, &mut found) {
            Ok(true) => {}
            Ok(false) => return Ok(found),
            Err(cause) => return Err(cause),
        }
    }
}

/// Counts the blocks, batches and rows of a disk as it reads. It writes nothing and syncs nothing,
/// and takes memory in proportion to the log of a block.
pub fn inspect<D: Disk>(alloc: Global, disk: &mut D) -> Result<Found, OpenCause>
    // No file is changed, and a crash leaves what it might have left before.
    ensures quiet { Quiet D.honest D.seen D.may_leave D.moment D.left_since disk.old disk.new }

    // The counts are those of the history that the files recover to.
    ensures counts { D.honest disk.old → IfOk result (Counts (D.seen disk.old)) }
    ensures counts_only { D.honest disk.old → (closed : List Block) → (active : List Frame)
        → Recovers (D.seen disk.old) closed active
        → MatchResult result (IsCountOf closed active) NamesNone }

    // Files are damaged where this is told, and this is told where they are damaged.
    ensures damaged { D.honest disk.old → IfErr result (TellsDamage (D.seen disk.old)) }
    ensures damaged_only { D.honest disk.old → (file : File) → (at : ℕ)
        → IsDamagedAt (D.seen disk.old) file at
        → MatchResult result (λ _. ⊥) (NamesDamage file at) }
    ensures cause { HasOpenCause (D.faults disk.old) (D.faults disk.new) result }
{
    one_recovery();
    one_damaged_place();
    recovery_or_damage();
    count_blocks(alloc, disk)
}
