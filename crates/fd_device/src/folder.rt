use crate::{FileId, FileKind};
use fd_lists::Text;
use std::fs::{File, OpenOptions};
use std::io::ErrorKind;
use std::os::unix::fs::{FileExt, MetadataExt};
use std::rt::Files;
use std::{fs, io};

/// The file that was used last, which stays open.
#[derive(Drop)]
struct Opened {
    id: FileId,
    file: File,
}

/// Files `log-0`, `pages-0`, `seal-0` and so on in a folder.
#[derive(Drop)]
pub(crate) struct Folder<R: Files> {
    files: R,
    name: Text,
    open: Option<Opened>,
    /// Whether the names of the files are on the disk, as far as this program knows.
    has_names: bool,
}

fn kind_name(kind: FileKind) -> &'static str {
    match kind {
        FileKind::Log => "log",
        FileKind::Pages => "pages",
        FileKind::Seal => "seal",
    }
}

/// Opens a file for writing, or for reading alone where it can't be written.
fn open_path<R: Files<File = File>>(files: &R, path: &str) -> io::Result<File> {
    match OpenOptions::new().read(true).write(true).open(files, path) {
        Ok(file) => Ok(file),
        Err(_) => OpenOptions::new().read(true).open(files, path),
    }
}

/// Opens a file that may be there. What is no regular file of the folder itself, as a link, is an
/// error, also where it took the file's place meanwhile.
fn find_file<R: Files<File = File>>(files: &R, path: &str) -> io::Result<Option<File>> {
    let named = match fs::symlink_metadata(files, path) {
        Ok(named) => named,
        Err(e) if e.kind() == ErrorKind::NotFound => return Ok(None),
        Err(e) => return Err(e),
    };
    if !named.is_file() {
        return Err(io::Error::from(ErrorKind::InvalidInput));
    }
    let file = open_path(files, path)?;
    let opened = file.metadata()?;
    if opened.dev() != named.dev() || opened.ino() != named.ino() {
        return Err(io::Error::from(ErrorKind::InvalidInput));
    }
    Ok(Some(file))
}

/// Makes a folder where there is none. The folder that it stands in has to be there.
fn make_folder<R: Files>(files: &R, name: &str) -> io::Result<()> {
    match fs::create_dir(files, name) {
        Ok(()) => Ok(()),
        Err(e) if e.kind() == ErrorKind::AlreadyExists => Ok(()),
        Err(e) => Err(e),
    }
}

fn sync_folder<R: Files<File = File>>(files: &R, name: &str) -> io::Result<()> {
    File::open(files, name)?.sync_all()
}

impl<R: Files<File = File>> Folder<R> {
    pub fn new(files: R, name: Text) -> Folder<R> {
        Folder {
            files,
            name,
            open: None,
            has_names: false,
        }
    }

    /// The folder's own path. An empty name is the folder that the program runs in.
    fn root(&self) -> &str {
        if self.name.is_empty() {
            "."
        } else {
            self.name.as_str()
        }
    }

    /// The path of a file.
    fn path(&self, id: FileId) -> io::Result<String> {
        let (root, kind) = (self.root(), kind_name(id.kind));
        Ok(format!(in self.name.allocator(); "{root}/{kind}-{}", id.block)?)
    }

    /// Takes the open file, or opens it where it is there.
    fn take(&mut self, id: FileId) -> io::Result<Option<File>> {
        if let Some(opened) = self.open.take() {
            if opened.id == id {
                return Ok(Some(opened.file));
            }
        }
        let path = self.path(id)?;
        find_file(&self.files, path.as_str())
    }

    /// Takes the open file, or opens or makes it. A file is made by its name alone, where nothing
    /// stands, so no link is followed.
    fn take_or_make(&mut self, id: FileId) -> io::Result<File> {
        if let Some(file) = self.take(id)? {
            return Ok(file);
        }
        self.has_names = false;
        make_folder(&self.files, self.root())?;
        let path = self.path(id)?;
        File::create_new(&self.files, path.as_str())
    }

    /// The length of a file in bytes, 0 where it is not there.
    pub fn length(&mut self, id: FileId) -> io::Result<u64> {
        let Some(file) = self.take(id)? else {
            return Ok(0);
        };
        let length = file.metadata()?.len();
        self.open = Some(Opened { id, file });
        Ok(length)
    }

    /// Fills the piece.
    pub fn read_at(&mut self, id: FileId, at: u64, piece: &mut [u8]) -> io::Result<()> {
        let Some(file) = self.take(id)? else {
            if piece.is_empty() {
                return Ok(());
            }
            return Err(io::Error::from(ErrorKind::UnexpectedEof));
        };
        file.read_exact_at(piece, at)?;
        self.open = Some(Opened { id, file });
        Ok(())
    }

    /// Writes the whole piece.
    pub fn write_at(&mut self, id: FileId, at: u64, piece: &[u8]) -> io::Result<()> {
        let file = self.take_or_make(id)?;
        file.write_all_at(piece, at)?;
        self.open = Some(Opened { id, file });
        Ok(())
    }

    /// Cuts a file, which is not made longer.
    pub fn cut(&mut self, id: FileId, size: u64) -> io::Result<()> {
        let Some(file) = self.take(id)? else {
            if size == 0 {
                return Ok(());
            }
            return Err(io::Error::from(ErrorKind::InvalidInput));
        };
        if size > file.metadata()?.len() {
            return Err(io::Error::from(ErrorKind::InvalidInput));
        }
        file.set_len(size)?;
        self.open = Some(Opened { id, file });
        Ok(())
    }

    /// Syncs a file, and the names of the files where they may not be on the disk: at the first
    /// sync, since an earlier run may have made a file, and after a file was made.
    pub fn sync(&mut self, id: FileId) -> io::Result<()> {
        let Some(file) = self.take(id)? else {
            return Ok(());
        };
        file.sync_all()?;
        self.open = Some(Opened { id, file });
        if !self.has_names {
            self.sync_names()?;
            self.has_names = true;
        }
        Ok(())
    }

    /// Syncs the folder and the one that it stands in, where its own name is.
    fn sync_names(&self) -> io::Result<()> {
        let root = self.root();
        sync_folder(&self.files, root)?;
        let parent = format!(in self.name.allocator(); "{root}/..")?;
        sync_folder(&self.files, parent.as_str())
    }
}
