ghost use Rattle.std.specs.Prelude.{◌≡◌, ◌≤◌, ◌+◌, [], ◌∷◌, length, take, IfOk, IfErr, OnOk};
ghost use Rattle.std.specs.Prelude.{IsTrue, ◌↔◌};
ghost use Rattle.std.specs.Prelude.{MatchResult};
ghost use Rattle.fd_device.specs.Causes.{Rose};
ghost use Rattle.fd_device.specs.Disks.{IsDurable};
ghost use Rattle.fd_wal.specs.Logs.{IsOpen, IsClosed};
ghost use Rattle.fd_keeper.specs.Blocks.{log_of, seal_of};
ghost use Rattle.fd_open.specs.Barriers.{Quiet, IsDurableAt};
ghost use Rattle.fd_open.specs.Causes.{HasOpenCause, TellsLog, TellsBlock, NamesNone};
ghost use Rattle.fd_open.specs.Counting.{IsFoundIn, IsFound};

use crate::cause::OpenCause;
use fd_device::{Disk, DiskFault, FileId, FileKind};
use fd_lists::NoMemory;
use fd_wal::{ReplayFault, Replayed, replay};
use std::alloc::Global;

/// What was found in a log.
#[derive(Debug, Drop)]
pub(crate) struct LogFound {
    pub replayed: Replayed,
    /// The length of the log in bytes.
    pub size: u64,
}

fn sync_file<D: Disk>(disk: &mut D, file: FileId) -> Result<(), DiskFault>
    ensures quiet { Quiet D.honest D.seen D.may_leave D.moment D.left_since disk.old disk.new }
    ensures durable { D.honest disk.old → OnOk result
        (IsDurable file (D.seen disk.old) (D.may_leave disk.new)) }
    ensures cause { MatchResult result (λ _. D.faults disk.new ≡ D.faults disk.old)
        (λ _. Rose (D.faults disk.old) (D.faults disk.new)) }
{
    disk.sync(file)
}

fn length_of<D: Disk>(disk: &mut D, file: FileId) -> Result<u64, DiskFault>
    ensures quiet { Quiet D.honest D.seen D.may_leave D.moment D.left_since disk.old disk.new }
    ensures value { D.honest disk.old → IfOk result (λ n. n ≡ length (D.seen disk.old file)) }
    ensures cause { MatchResult result (λ _. D.faults disk.new ≡ D.faults disk.old)
        (λ _. Rose (D.faults disk.old) (D.faults disk.new)) }
{
    disk.length(file)
}

/// Fills the piece with the first bytes of a file.
fn read_front<D: Disk>(disk: &mut D, file: FileId, piece: &mut [u8]) -> Result<(), DiskFault>
    requires { D.honest disk.old → length piece.old ≤ length (D.seen disk.old file) }
    ensures quiet { Quiet D.honest D.seen D.may_leave D.moment D.left_since disk.old disk.new }
    ensures bytes { D.honest disk.old → OnOk result
        (piece.new ≡ take (length piece.old) (D.seen disk.old file)) }
    ensures cause { MatchResult result (λ _. D.faults disk.new ≡ D.faults disk.old)
        (λ _. Rose (D.faults disk.old) (D.faults disk.new)) }
{
    disk.read_at(file, 0, piece)
}

/// Syncs the files of a block. It takes no memory.
pub(crate) fn sync_block<D: Disk>(disk: &mut D, block: u64) -> Result<(), DiskFault>
    ensures quiet { Quiet D.honest D.seen D.may_leave D.moment D.left_since disk.old disk.new }
    ensures durable { D.honest disk.old → OnOk result
        (IsDurableAt block (D.seen disk.old) (D.may_leave disk.new)) }
    ensures cause { MatchResult result (λ _. D.faults disk.new ≡ D.faults disk.old)
        (λ _. Rose (D.faults disk.old) (D.faults disk.new)) }
{
    let seal = FileId {
        kind: FileKind::Seal,
        block,
    };
    let pages = FileId {
        kind: FileKind::Pages,
        block,
    };
    let log = FileId {
        kind: FileKind::Log,
        block,
    };
    sync_file(disk, seal)?;
    sync_file(disk, pages)?;
    sync_file(disk, log)?;
    Ok(())
}

/// Whether the first bytes of a seal, of which there are two at least, are an open gate.
fn is_open(gate: &[u8; 1]) -> bool
    ensures { IsTrue result ↔ (gate.now ≡ 1 ∷ []) }
{
    gate[0] == 1
}

/// Whether the seal of a block has an open gate.
fn has_open_seal<D: Disk>(disk: &mut D, block: u64) -> Result<bool, DiskFault>
    ensures quiet { Quiet D.honest D.seen D.may_leave D.moment D.left_since disk.old disk.new }
    ensures value { D.honest disk.old → IfOk result (λ opened.
        IsTrue opened ↔ IsOpen (D.seen disk.old (seal_of block))) }
    ensures cause { MatchResult result (λ _. D.faults disk.new ≡ D.faults disk.old)
        (λ _. Rose (D.faults disk.old) (D.faults disk.new)) }
{
    let seal = FileId {
        kind: FileKind::Seal,
        block,
    };
    if length_of(disk, seal)? < 2 {
        return Ok(false);
    }
    let mut gate = [0u8; 1];
    read_front(disk, seal, &mut gate)?;
    Ok(is_open(&gate))
}

fn zeros(alloc: Global, size: u64) -> Result<Vec<u8>, NoMemory>
    ensures { IfOk result (λ bytes. length bytes.items ≡ size) }
{
    Ok(vec![in alloc; 0u8; size as usize]?)
}

/// The bytes of a file.
fn read_file<D: Disk>(alloc: Global, disk: &mut D, file: FileId) -> Result<Vec<u8>, OpenCause>
    ensures quiet { Quiet D.honest D.seen D.may_leave D.moment D.left_since disk.old disk.new }
    ensures bytes { D.honest disk.old → IfOk result (λ bytes. bytes.items ≡ D.seen disk.old file) }
    ensures undamaged { IfErr result NamesNone }
    ensures cause { HasOpenCause (D.faults disk.old) (D.faults disk.new) result }
{
    let size = length_of(disk, file)?;
    let mut bytes = zeros(alloc, size)?;
    read_front(disk, file, &mut bytes)?;
    Ok(bytes)
}

/// What the bytes of a block's log tell.
fn replay_log(alloc: Global, bytes: &[u8], block: u64, first: u64) -> Result<LogFound, OpenCause>
    ensures found { IfOk result (IsFoundIn bytes.now first) }
    ensures damaged { IfErr result (TellsLog bytes.now block first) }
{
    match replay(alloc, bytes, first) {
        Ok(replayed) => Ok(LogFound {
            replayed,
            size: bytes.len() as u64,
        }),
        Err(ReplayFault::Damaged { at }) => {
            let file = FileId {
                kind: FileKind::Log,
                block,
            };
            Err(OpenCause::Damaged { file, at })
        }
        Err(ReplayFault::NoMemory) => Err(OpenCause::NoMemory),
    }
}

/// What the log of a block tells, whose first batch has the number `first`. It takes memory in
/// proportion to the log.
pub(crate) fn read_block<D: Disk>(
    alloc: Global,
    disk: &mut D,
    block: u64,
    first: u64,
) -> Result<LogFound, OpenCause>
    ensures quiet { Quiet D.honest D.seen D.may_leave D.moment D.left_since disk.old disk.new }
    ensures unsealed { D.honest disk.old
        → OnOk result (IsClosed (D.seen disk.old (seal_of block))) }
    ensures found { D.honest disk.old
        → IfOk result (IsFoundIn (D.seen disk.old (log_of block)) first) }
    ensures right { IfOk result (IsFound first) }
    ensures damaged { D.honest disk.old → IfErr result (TellsBlock (D.seen disk.old) block first) }
    ensures cause { HasOpenCause (D.faults disk.old) (D.faults disk.new) result }
{
    let seal = FileId {
        kind: FileKind::Seal,
        block,
    };
    let log = FileId {
        kind: FileKind::Log,
        block,
    };
    if has_open_seal(disk, block)? {
        return Err(OpenCause::Damaged { file: seal, at: 0 });
    }
    let bytes = match read_file(alloc, disk, log) {
        Ok(bytes) => bytes,
        Err(cause) => return Err(cause),
    };
    replay_log(alloc, &bytes, block, first)
}
