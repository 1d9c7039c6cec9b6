use crate::logs::{disk_with, ended_log, holds, log_of, unopened_log};
use fd_device::{Calls, FileId};
use fd_open::{NotOpened, OpenCause, Reopened, reopen};
use std::alloc::Global;
use std::test::Fail;

/// Whether a store of these files has so many batches after a crash at this call of the disk and
/// another start, whichever of 16 images the crash leaves, and its active log is this one then.
fn is_left(
    alloc: Global,
    files: &[(FileId, &[u8])],
    call: u64,
    count: u64,
    log: (FileId, &[u8]),
) -> Result<bool, Fail> {
    for choice in 0..16 {
        let mut fails = Calls::new(alloc);
        fails.push(call)?;
        let disk = disk_with(alloc, files, fails)?;
        let Err(NotOpened { disk, cause }) = reopen(alloc, disk) else {
            return Ok(false);
        };
        let mut disk = disk;
        disk.image(choice);
        let Ok(Reopened { shelf, keeper }) = reopen(alloc, disk) else {
            return Ok(false);
        };
        let synced = keeper.synced();
        let mut disk = keeper.close();
        if cause != OpenCause::DiskFault
            || shelf.mark() != count
            || synced != count
            || !holds(&mut disk, log.0, log.1)
        {
            return Ok(false);
        }
    }
    Ok(true)
}

// The first two calls of the disk write its file, and the ten behind them open the store.
#[test]
fn a_crash_while_a_store_is_opened_leaves_its_batch(rt: HostRuntime) -> Result<(), Fail> {
    let log = unopened_log(rt.alloc(), 1)?;
    let (whole, _) = log.as_slice().split_at(log.len().min(314));
    let files = [(log_of(0), log.as_slice())];
    for call in 3..13 {
        assert!(rt; is_left(rt.alloc(), &files, call, 1, (log_of(0), whole))?);
    }
    Ok(())
}

// The first four calls write two files, and sixteen open the store.
#[test]
fn a_crash_while_two_blocks_are_opened_leaves_their_batches(rt: HostRuntime) -> Result<(), Fail> {
    let ended = ended_log(rt.alloc())?;
    let log = unopened_log(rt.alloc(), 2)?;
    let (whole, _) = log.as_slice().split_at(log.len().min(314));
    let files = [(log_of(0), ended.as_slice()), (log_of(1), log.as_slice())];
    for call in 5..21 {
        assert!(rt; is_left(rt.alloc(), &files, call, 2, (log_of(1), whole))?);
    }
    Ok(())
}
