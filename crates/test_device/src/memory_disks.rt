use crate::disks::{LOG, SEAL, holds, put, shorten};
use fd_device::{Calls, Disk, DiskFault, MemDisk, cut_synced, write_synced};
use fd_lists::Items;
use std::test::Fail;

fn disk(rt: &HostRuntime) -> Result<MemDisk, Fail> {
    Ok(MemDisk::new(rt.alloc(), Items::new(rt.alloc()))?)
}

#[test]
fn a_memory_disk_reads_what_was_written(rt: HostRuntime) -> Result<(), Fail> {
    let mut disk = disk(&rt)?;
    assert!(rt; put(&mut disk, LOG, 0, b"abc").is_ok());
    assert!(rt; put(&mut disk, LOG, 1, b"XYZ").is_ok());
    assert!(rt; holds(&mut disk, LOG, b"aXYZ") && holds(&mut disk, SEAL, b""));
    assert!(rt; shorten(&mut disk, LOG, 2).is_ok() && holds(&mut disk, LOG, b"aX"));
    assert!(rt; cut_synced(&mut disk, LOG, 0).is_ok() && holds(&mut disk, LOG, b""));
    assert!(rt; disk.faults() == 0 && disk.starved() == 0);
    Ok(())
}

#[test]
fn a_listed_call_fails_and_does_nothing(rt: HostRuntime) -> Result<(), Fail> {
    let mut fails = Calls::new(rt.alloc());
    fails.push(2)?;
    fails.push(3)?;
    let mut disk = MemDisk::new(rt.alloc(), fails)?;
    assert!(rt; disk.write_at(LOG, 0, b"ab").is_ok());
    assert!(rt; disk.sync(LOG) == Err(DiskFault));
    assert!(rt; disk.write_at(LOG, 0, b"XX") == Err(DiskFault));
    assert!(rt; holds(&mut disk, LOG, b"ab"));
    assert!(rt; disk.faults() == 2 && disk.starved() == 0);
    Ok(())
}

#[test]
fn a_synced_write_is_in_each_image(rt: HostRuntime) -> Result<(), Fail> {
    let mut disk = disk(&rt)?;
    for choice in 0..16 {
        assert!(rt; write_synced(&mut disk, LOG, 0, b"ab").is_ok());
        disk.image(choice);
        assert!(rt; holds(&mut disk, LOG, b"ab"));
    }
    Ok(())
}

#[test]
fn a_write_that_is_not_synced_may_be_there(rt: HostRuntime) -> Result<(), Fail> {
    let mut disk = disk(&rt)?;
    assert!(rt; write_synced(&mut disk, LOG, 0, b"ab").is_ok());
    assert!(rt; put(&mut disk, LOG, 2, b"cdef").is_ok());
    disk.image(0);
    assert!(rt; holds(&mut disk, LOG, b"abcdef"));
    disk.image(1);
    assert!(rt; holds(&mut disk, LOG, b"abcdef"));
    Ok(())
}

#[test]
fn a_write_that_is_not_synced_may_be_lost(rt: HostRuntime) -> Result<(), Fail> {
    let mut disk = disk(&rt)?;
    assert!(rt; write_synced(&mut disk, LOG, 0, b"ab").is_ok());
    assert!(rt; put(&mut disk, LOG, 2, b"cdef").is_ok());
    disk.image(1);
    assert!(rt; holds(&mut disk, LOG, b"ab"));
    Ok(())
}

#[test]
fn a_write_that_is_not_synced_may_be_torn(rt: HostRuntime) -> Result<(), Fail> {
    let mut disk = disk(&rt)?;
    assert!(rt; write_synced(&mut disk, LOG, 0, b"ab").is_ok());
    assert!(rt; put(&mut disk, LOG, 2, b"cdef").is_ok());
    disk.image(2);
    assert!(rt; !holds(&mut disk, LOG, b"abcdef") && !holds(&mut disk, LOG, b"ab"));
    assert!(rt; disk.length(LOG).is_ok_and(|n| n > 2 && n <= 6));
    Ok(())
}

#[test]
fn a_cut_that_is_not_synced_may_be_lost(rt: HostRuntime) -> Result<(), Fail> {
    let mut disk = disk(&rt)?;
    assert!(rt; write_synced(&mut disk, LOG, 0, b"abcd").is_ok());
    assert!(rt; shorten(&mut disk, LOG, 1).is_ok() && holds(&mut disk, LOG, b"a"));
    disk.image(1);
    assert!(rt; holds(&mut disk, LOG, b"abcd"));
    Ok(())
}
