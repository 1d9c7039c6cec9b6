use crate::keeping::{add, opened, rotate};
use fd_device::Calls;
use fd_keeper::{Keeper, KeeperFault};
use fixture_disk::{TestDisk, holds, log_of, read_log, seal_of};
use std::alloc::Global;
use std::test::Fail;

/// A choice of an image for each of the three files.
const EACH_FILE: u64 = 21;

/// Whether a keeper is stopped at the first fault of its disk, and answers nothing else.
fn is_stopped(alloc: Global, keeper: &mut Keeper<TestDisk>) -> bool {
    let stopped = KeeperFault::Stopped { count: 1 };
    keeper.fault_count() == Some(1)
        && add(alloc, keeper) == Err(stopped)
        && (keeper.synced() == 0 || rotate(alloc, keeper) == Err(stopped))
}

/// How many batches are there after a crash at this call of the disk, the tenth being the first of
/// a flush of one batch. None where the log is damaged or the keeper went on.
fn left_of_flush(alloc: Global, call: u64, choice: u64) -> Result<Option<usize>, Fail> {
    let mut fails = Calls::new(alloc);
    fails.push(call)?;
    let mut keeper = opened(alloc, fails)?;
    if add(alloc, &mut keeper) != Err(KeeperFault::DiskFault) || !is_stopped(alloc, &mut keeper) {
        return Ok(None);
    }
    let mut disk = keeper.close();
    disk.image(choice);
    match read_log(alloc, &mut disk, 0, 1) {
        Some(found) => Ok(Some(found.batches.len())),
        None => Ok(None),
    }
}

/// Whether one batch is there after a crash at this call of the disk, the sixteenth being the first
/// of a rotation behind a flush of one batch.
fn is_left_of_rotation(alloc: Global, call: u64, choice: u64) -> Result<bool, Fail> {
    let mut fails = Calls::new(alloc);
    fails.push(call)?;
    let mut keeper = opened(alloc, fails)?;
    if add(alloc, &mut keeper) != Ok(1)
        || rotate(alloc, &mut keeper) != Err(KeeperFault::DiskFault)
        || !is_stopped(alloc, &mut keeper)
    {
        return Ok(false);
    }
    let mut disk = keeper.close();
    disk.image(choice);
    let Some(found) = read_log(alloc, &mut disk, 0, 1) else {
        return Ok(false);
    };
    Ok(found.batches.len() == 1 && (!found.rotated || is_empty(alloc, &mut disk)))
}

/// Whether the next block has no batch.
fn is_empty(alloc: Global, disk: &mut TestDisk) -> bool {
    match read_log(alloc, disk, 1, 2) {
        Some(found) => found.batches.len() == 0 && !found.rotated && holds(disk, seal_of(1), &[]),
        None => false,
    }
}

#[test]
fn a_crash_before_the_gate_is_written_leaves_nothing(rt: HostRuntime) -> Result<(), Fail> {
    for call in 10..15 {
        for choice in 0..4 {
            assert!(rt; left_of_flush(rt.alloc(), call, choice * EACH_FILE)? == Some(0));
        }
    }
    Ok(())
}

#[test]
fn a_crash_before_the_gate_is_synced_leaves_nothing_or_all(rt: HostRuntime) -> Result<(), Fail> {
    assert!(rt; left_of_flush(rt.alloc(), 15, 0)? == Some(1));
    assert!(rt; left_of_flush(rt.alloc(), 15, EACH_FILE)? == Some(0));
    for choice in 2..4 {
        let left = left_of_flush(rt.alloc(), 15, choice * EACH_FILE)?;
        assert!(rt; left == Some(0) || left == Some(1));
    }
    Ok(())
}

#[test]
fn a_crash_in_a_rotation_leaves_the_batches(rt: HostRuntime) -> Result<(), Fail> {
    for call in 16..31 {
        for choice in 0..4 {
            assert!(rt; is_left_of_rotation(rt.alloc(), call, choice * EACH_FILE)?);
        }
    }
    Ok(())
}

#[test]
fn a_flush_goes_on_after_a_crash(rt: HostRuntime) -> Result<(), Fail> {
    let mut fails = Calls::new(rt.alloc());
    fails.push(11)?;
    let mut keeper = opened(rt.alloc(), fails)?;
    assert!(rt; add(rt.alloc(), &mut keeper) == Err(KeeperFault::DiskFault));
    let mut disk = keeper.close();
    disk.image(0);
    assert!(rt; holds(&mut disk, log_of(0), &[0]));
    let mut again = Keeper::resume(disk, 0, 0, 0);
    assert!(rt; add(rt.alloc(), &mut again) == Ok(1) && again.fault_count() == None);
    Ok(())
}
