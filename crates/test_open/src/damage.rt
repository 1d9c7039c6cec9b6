use crate::logs::{
    ended_log, flipped, frame_with, holds, log_of, seal_of, two_batches, unopened_log, whole_disk,
};
use fd_device::FileId;
use fd_open::{NotOpened, OpenCause, inspect, reopen};
use fixtures::joined;
use std::alloc::Global;
use std::test::Fail;

/// Whether these files are damaged at this place, and stay as they are.
fn is_damaged(
    alloc: Global,
    files: &[(FileId, &[u8])],
    file: FileId,
    at: u64,
) -> Result<bool, Fail> {
    let damaged = OpenCause::Damaged { file, at };
    let mut disk = whole_disk(alloc, files)?;
    if inspect(alloc, &mut disk) != Err(damaged) {
        return Ok(false);
    }
    let Err(NotOpened { disk, cause }) = reopen(alloc, disk) else {
        return Ok(false);
    };
    let mut disk = disk;
    for (file, bytes) in files {
        if !holds(&mut disk, *file, bytes) {
            return Ok(false);
        }
    }
    Ok(cause == damaged)
}

#[test]
fn a_flipped_byte_is_found_in_its_frame(rt: HostRuntime) -> Result<(), Fail> {
    let log = two_batches(rt.alloc())?;
    for (place, at) in [
        (1, 0),
        (20, 0),
        (312, 0),
        (314, 313),
        (350, 313),
        (625, 313),
    ] {
        let bytes = flipped(rt.alloc(), log.as_slice(), place)?;
        let files = [(log_of(0), bytes.as_slice())];
        assert!(rt; is_damaged(rt.alloc(), &files, log_of(0), at)?);
    }
    Ok(())
}

#[test]
fn a_later_block_is_damaged(rt: HostRuntime) -> Result<(), Fail> {
    let ended = ended_log(rt.alloc())?;
    let log = unopened_log(rt.alloc(), 2)?;
    let bytes = flipped(rt.alloc(), log.as_slice(), 100)?;
    let files = [(log_of(0), ended.as_slice()), (log_of(1), bytes.as_slice())];
    assert!(rt; is_damaged(rt.alloc(), &files, log_of(1), 0)?);
    Ok(())
}

#[test]
fn an_open_seal_is_damaged(rt: HostRuntime) -> Result<(), Fail> {
    let log = two_batches(rt.alloc())?;
    let bytes = flipped(rt.alloc(), log.as_slice(), 20)?;
    let files = [(log_of(0), bytes.as_slice()), (seal_of(0), &[1, 70][..])];
    assert!(rt; is_damaged(rt.alloc(), &files, seal_of(0), 0)?);
    Ok(())
}

#[test]
fn hostile_counts_are_damage(rt: HostRuntime) -> Result<(), Fail> {
    let size = [1, 0xff, 0xff, 0xff, 0xff, 0, 0];
    assert!(rt; is_damaged(rt.alloc(), &[(log_of(0), &size[..])], log_of(0), 0)?);
    let count = [
        1, 1, 1, 0, 0, 0, 0, 0, 0, 0, 0xff, 0xff, 0xff, 0x3f, 0, 0, 0, 0,
    ];
    let frame = frame_with(rt.alloc(), &count)?;
    let log = joined(rt.alloc(), &[frame.as_slice(), &[0]])?;
    assert!(rt; is_damaged(rt.alloc(), &[(log_of(0), log.as_slice())], log_of(0), 0)?);
    Ok(())
}
