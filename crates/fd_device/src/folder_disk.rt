ghost use Rattle.std.specs.Prelude.{◌≡◌};
ghost use Rattle.fd_device.specs.Causes.{Rose};

use crate::folder::Folder;
use crate::{Disk, DiskFault, FileId};
use fd_lists::Text;
use std::fs::File;
use std::rt::Files;

/// A disk over a folder of the file system. The files are `log-0`, `pages-0`, `seal-0` and so on,
/// with the number of the block in decimal. The folder is made at the first write; the folder that
/// it stands in has to be there.
///
/// Each error of the file system is a fault, and so is a file that is a link or no regular file, a
/// folder that can't be opened or synced, and want of memory for a path. No contract says what a
/// file holds: that the file system keeps what it was told to sync is trusted. Nobody else may
/// write the files meanwhile.
#[derive(Drop)]
pub struct FolderDisk<R: Files> {
    folder: Folder<R>,
    faults: u64,
}

impl<R: Files<File = File>> FolderDisk<R> {
    /// A disk that has met no fault. It takes no memory and looks at no file yet.
    pub fn new(files: R, folder: Text) -> FolderDisk<R>
        ensures none { result.faults ≡ 0 }
    {
        FolderDisk {
            folder: Folder::new(files, folder),
            faults: 0,
        }
    }

    /// Counts a fault.
    fn fault(&mut self) -> DiskFault
        ensures rose { Rose self.old.faults self.new.faults }
    {
        self.faults = self.faults.saturating_add(1);
        DiskFault
    }
}

impl<R: Files<File = File>> Disk for FolderDisk<R> {
    ghost use Rattle.std.specs.Prelude.{[]};

    ghost honest = { λ _. ⊥ };

    ghost seen = { λ _ file. [] };

    ghost may_leave = { λ _ image. ⊥ };

    ghost moment = { λ _. 0 };

    ghost left_since = { λ _ t image. ⊥ };

    ghost faults = { λ d. d.faults };

    ghost counts_now = { λ d t image honest late now. absurd honest };

    ghost only_now = { λ d image honest was. absurd honest };

    fn length(&mut self, file: FileId) -> Result<u64, DiskFault> {
        match self.folder.length(file) {
            Ok(length) => Ok(length),
            Err(_) => Err(self.fault()),
        }
    }

    fn read_at(&mut self, file: FileId, at: u64, piece: &mut [u8]) -> Result<(), DiskFault> {
        match self.folder.read_at(file, at, piece) {
            Ok(()) => Ok(()),
            Err(_) => Err(self.fault()),
        }
    }

    fn write_at(&mut self, file: FileId, at: u64, piece: &[u8]) -> Result<(), DiskFault> {
        match self.folder.write_at(file, at, piece) {
            Ok(()) => Ok(()),
            Err(_) => Err(self.fault()),
        }
    }

    fn cut(&mut self, file: FileId, size: u64) -> Result<(), DiskFault> {
        match self.folder.cut(file, size) {
            Ok(()) => Ok(()),
            Err(_) => Err(self.fault()),
        }
    }

    fn sync(&mut self, file: FileId) -> Result<(), DiskFault> {
        match self.folder.sync(file) {
            Ok(()) => Ok(()),
            Err(_) => Err(self.fault()),
        }
    }

    fn faults(&self) -> u64 {
        self.faults
    }
}
