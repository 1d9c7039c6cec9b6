use fd_device::{Disk, DiskFault, FileId, FileKind, PlainDisk, cut_synced, write_synced};
use std::test::Fail;

pub(crate) const LOG: FileId = FileId {
    kind: FileKind::Log,
    block: 0,
};

pub(crate) const SEAL: FileId = FileId {
    kind: FileKind::Seal,
    block: 12,
};

/// Whether a file holds exactly these bytes, at most 16.
pub(crate) fn holds<D: Disk>(disk: &mut D, file: FileId, bytes: &[u8]) -> bool {
    let mut piece = [0u8; 16];
    if bytes.len() > 16 || disk.length(file) != Ok(bytes.len() as u64) {
        return false;
    }
    let front = &mut piece[..bytes.len()];
    disk.read_at(file, 0, front).is_ok() && &*front == bytes
}

/// Writes at a place within the file or at its end.
pub(crate) fn put<D: Disk>(
    disk: &mut D,
    file: FileId,
    at: u64,
    bytes: &[u8],
) -> Result<(), DiskFault> {
    if at > disk.length(file)? {
        return Err(DiskFault);
    }
    disk.write_at(file, at, bytes)
}

/// Cuts a file to a length that is not above its own.
pub(crate) fn shorten<D: Disk>(disk: &mut D, file: FileId, size: u64) -> Result<(), DiskFault> {
    if size > disk.length(file)? {
        return Err(DiskFault);
    }
    disk.cut(file, size)
}

#[test]
fn a_plain_disk_reads_what_was_written(rt: HostRuntime) -> Result<(), Fail> {
    let mut disk = PlainDisk::new(rt.alloc())?;
    assert!(rt; holds(&mut disk, SEAL, b""));
    assert!(rt; put(&mut disk, LOG, 0, b"abc").is_ok());
    assert!(rt; put(&mut disk, LOG, 1, b"XYZ").is_ok());
    assert!(rt; holds(&mut disk, LOG, b"aXYZ"));
    assert!(rt; holds(&mut disk, SEAL, b""));
    Ok(())
}

#[test]
fn a_plain_disk_is_cut_and_synced(rt: HostRuntime) -> Result<(), Fail> {
    let mut disk = PlainDisk::new(rt.alloc())?;
    assert!(rt; write_synced(&mut disk, LOG, 0, b"abc").is_ok());
    assert!(rt; shorten(&mut disk, LOG, 2).is_ok());
    assert!(rt; disk.sync(LOG).is_ok());
    assert!(rt; holds(&mut disk, LOG, b"ab"));
    assert!(rt; cut_synced(&mut disk, LOG, 0).is_ok());
    assert!(rt; holds(&mut disk, LOG, b""));
    assert!(rt; disk.faults() == 0 && disk.starved() == 0);
    Ok(())
}
