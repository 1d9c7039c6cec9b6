ghost use Rattle.std.specs.Prelude.{◌≡◌};
ghost use Rattle.fd_device.specs.Causes.{Rose};

use fd_device::{Calls, Disk, DiskFault, FileId, FileKind, MemDisk};
use fd_kinds::NoMemory;
use fd_wal::{Replayed, replay};
use std::alloc::Global;

/// The log of a block.
pub fn log_of(block: u64) -> FileId {
    FileId {
        kind: FileKind::Log,
        block,
    }
}

/// The seal of a block.
pub fn seal_of(block: u64) -> FileId {
    FileId {
        kind: FileKind::Seal,
        block,
    }
}

/// A disk in memory of which contracts are told no file, so that a test proves nothing of what a
/// disk holds before a call, and looks there afterwards. A read, a write and a cut ask for the
/// length first, which is a call of its own.
#[derive(Drop)]
pub struct TestDisk {
    disk: MemDisk,
    faults: u64,
}

impl TestDisk {
    pub fn new(alloc: Global, fails: Calls) -> Result<TestDisk, NoMemory> {
        Ok(TestDisk {
            disk: MemDisk::new(alloc, fails)?,
            faults: 0,
        })
    }

    /// Makes an image the present content, as after a crash and a start.
    pub fn image(&mut self, choice: u64) {
        self.disk.image(choice);
    }

    fn fault(&mut self) -> DiskFault
        ensures rose { Rose self.old.faults self.new.faults }
    {
        self.faults = self.faults.saturating_add(1);
        DiskFault
    }
}

fn read(disk: &mut MemDisk, file: FileId, at: u64, piece: &mut [u8]) -> Result<(), DiskFault> {
    let size = disk.length(file)?;
    if at > size || piece.len() as u64 > size - at {
        return Err(DiskFault);
    }
    disk.read_at(file, at, piece)
}

fn write(disk: &mut MemDisk, file: FileId, at: u64, piece: &[u8]) -> Result<(), DiskFault> {
    if at > disk.length(file)? {
        return Err(DiskFault);
    }
    disk.write_at(file, at, piece)
}

fn shorten(disk: &mut MemDisk, file: FileId, size: u64) -> Result<(), DiskFault> {
    if size > disk.length(file)? {
        return Err(DiskFault);
    }
    disk.cut(file, size)
}

impl Disk for TestDisk {
    ghost use Rattle.std.specs.Prelude.{[]};

    ghost honest = { λ _. ⊥ };

    ghost seen = { λ _ file. [] };

    ghost may_leave = { λ _ image. ⊥ };

    ghost moment = { λ _. 0 };

    ghost left_since = { λ _ t image. ⊥ };

    ghost faults = { λ d. d.faults };

    ghost counts_now = { λ d t image honest late now. absurd honest };

    ghost only_now = { λ d image honest was. absurd honest };

    fn length(&mut self, file: FileId) -> Result<u64, DiskFault> {
        match self.disk.length(file) {
            Ok(length) => Ok(length),
            Err(_) => Err(self.fault()),
        }
    }

    fn read_at(&mut self, file: FileId, at: u64, piece: &mut [u8]) -> Result<(), DiskFault> {
        match read(&mut self.disk, file, at, piece) {
            Ok(()) => Ok(()),
            Err(_) => Err(self.fault()),
        }
    }

    fn write_at(&mut self, file: FileId, at: u64, piece: &[u8]) -> Result<(), DiskFault> {
        match write(&mut self.disk, file, at, piece) {
            Ok(()) => Ok(()),
            Err(_) => Err(self.fault()),
        }
    }

    fn cut(&mut self, file: FileId, size: u64) -> Result<(), DiskFault> {
        match shorten(&mut self.disk, file, size) {
            Ok(()) => Ok(()),
            Err(_) => Err(self.fault()),
        }
    }

    fn sync(&mut self, file: FileId) -> Result<(), DiskFault> {
        match self.disk.sync(file) {
            Ok(()) => Ok(()),
            Err(_) => Err(self.fault()),
        }
    }

    fn faults(&self) -> u64 {
        self.faults
    }
}

/// Whether a file has exactly these bytes, at most 512.
pub fn holds(disk: &mut TestDisk, file: FileId, bytes: &[u8]) -> bool {
    let mut piece = [0u8; 512];
    if bytes.len() > 512 || disk.length(file) != Ok(bytes.len() as u64) {
        return false;
    }
    let front = &mut piece[..bytes.len()];
    disk.read_at(file, 0, front).is_ok() && &*front == bytes
}

/// Whether a file begins with these bytes, at most 512, and has this length.
pub fn begins(disk: &mut TestDisk, file: FileId, bytes: &[u8], size: u64) -> bool {
    let mut piece = [0u8; 512];
    if bytes.len() > 512 || disk.length(file) != Ok(size) {
        return false;
    }
    let front = &mut piece[..bytes.len()];
    disk.read_at(file, 0, front).is_ok() && &*front == bytes
}

/// What is in a log of at most 512 bytes, and None where it is damaged.
pub fn read_log(alloc: Global, disk: &mut TestDisk, block: u64, first: u64) -> Option<Replayed> {
    let mut piece = [0u8; 512];
    let size = disk.length(log_of(block)).ok()?;
    if size > 512 {
        return None;
    }
    let bytes = &mut piece[..size as usize];
    disk.read_at(log_of(block), 0, bytes).ok()?;
    replay(alloc, bytes, first).ok()
}
