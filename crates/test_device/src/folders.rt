use crate::disks::{LOG, SEAL, holds, put, shorten};
use fd_device::{Disk, DiskFault, FolderDisk, write_synced};
use fd_lists::Text;
use std::fs;
use std::os::unix::fs::symlink;
use std::rt::Files;
use std::test::Fail;

/// Removes what an earlier run may have left.
fn clear(rt: &HostRuntime, folder: &str) {
    let _ = fs::remove_dir_all(rt, folder);
}

#[test]
fn a_folder_is_made_at_the_first_write_and_read_again(rt: HostRuntime) -> Result<(), Fail> {
    let folder = "/tmp/frostd-folder-disk-files";
    clear(&rt, folder);
    let mut disk = FolderDisk::new(&rt, Text::of(rt.alloc(), folder)?);
    assert!(rt; holds(&mut disk, LOG, b"") && disk.sync(LOG).is_ok());
    assert!(rt; !fs::exists(&rt, folder)?);
    assert!(rt; write_synced(&mut disk, LOG, 0, b"abcd").is_ok());
    assert!(rt; put(&mut disk, SEAL, 0, b"x").is_ok());
    assert!(rt; shorten(&mut disk, LOG, 3).is_ok() && disk.sync(LOG).is_ok());
    assert!(rt;
        fs::read(&rt, "/tmp/frostd-folder-disk-files/log-0")?.as_slice() == b"abc".as_slice()
    );
    assert!(rt;
        fs::read(&rt, "/tmp/frostd-folder-disk-files/seal-12")?.as_slice() == b"x".as_slice()
    );
    let mut again = FolderDisk::new(&rt, Text::of(rt.alloc(), folder)?);
    assert!(rt; holds(&mut again, LOG, b"abc") && disk.faults() == 0);
    clear(&rt, folder);
    Ok(())
}

#[test]
fn a_link_is_not_followed(rt: HostRuntime) -> Result<(), Fail> {
    let (folder, outside) = (
        "/tmp/frostd-folder-disk-link",
        "/tmp/frostd-folder-disk-outside",
    );
    clear(&rt, folder);
    fs::write(&rt, outside, "kept")?;
    fs::create_dir(&rt, folder)?;
    symlink(&rt, outside, "/tmp/frostd-folder-disk-link/log-0")?;
    let mut disk = FolderDisk::new(&rt, Text::of(rt.alloc(), folder)?);
    assert!(rt; disk.length(LOG) == Err(DiskFault));
    assert!(rt; disk.write_at(LOG, 0, b"bad") == Err(DiskFault));
    assert!(rt; disk.faults() == 2);
    assert!(rt; fs::read(&rt, outside)?.as_slice() == b"kept".as_slice());
    clear(&rt, folder);
    fs::remove_file(&rt, outside)?;
    Ok(())
}

#[test]
fn a_folder_that_cannot_be_made_is_a_fault(rt: HostRuntime) -> Result<(), Fail> {
    let folder = "/tmp/frostd-no-such-folder/store";
    let mut disk = FolderDisk::new(&rt, Text::of(rt.alloc(), folder)?);
    assert!(rt; disk.write_at(LOG, 0, b"a") == Err(DiskFault));
    assert!(rt; disk.faults() == 1);
    Ok(())
}
