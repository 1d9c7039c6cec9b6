ghost use Rattle.std.specs.Prelude.{◌≡◌, ◌≤◌, [], length, take, OnOk, OnErr, IfOk};
ghost use Rattle.fd_device.specs.Disks.{written};

use fd_lists::NoMemory;
use std::alloc::Global;
use std::marker::Model;

/// The bytes of a file in memory, which contracts see as the list of them.
#[derive(Drop)]
pub(crate) struct FileBytes {
    bytes: Vec<u8>,
}

impl Model for FileBytes {
    ghost use Rattle.std.specs.Prelude.{List, ℕ};

    ghost Value = { List ℕ };

    ghost view = { λ f. f.bytes.items };
}

impl FileBytes {
    /// No bytes. It takes no memory.
    pub fn new(alloc: Global) -> FileBytes
        ensures { result ≡ [] }
    {
        FileBytes {
            bytes: Vec::new(alloc),
        }
    }

    /// A copy of the bytes.
    pub fn copy_of(alloc: Global, bytes: &[u8]) -> Result<FileBytes, NoMemory>
        ensures { IfOk result (λ copy. copy ≡ bytes.now) }
    {
        Ok(FileBytes {
            bytes: Vec::from_slice(alloc, bytes)?,
        })
    }

    pub fn as_slice(&self) -> &[u8]
        ensures { result.now ≡ self.now }
    {
        self.bytes.as_slice()
    }

    /// Writes over what is there, and past the end.
    pub fn write_at(&mut self, at: usize, piece: &[u8]) -> Result<(), NoMemory>
        requires { at ≤ length self.old }
        ensures ok { OnOk result (self.new ≡ written at piece.now self.old) }
        ensures err { OnErr result (self.new ≡ self.old) }
    {
        write_over(&mut self.bytes, at, piece)
    }

    /// Cuts the bytes to a length. It takes no memory.
    pub fn truncate(&mut self, size: usize)
        ensures { self.new ≡ take size self.old }
    {
        self.bytes.truncate(size);
    }
}

fn write_over(bytes: &mut Vec<u8>, at: usize, piece: &[u8]) -> Result<(), NoMemory>
    requires { at ≤ length bytes.old.items }
    ensures ok { OnOk result (bytes.new.items ≡ written at piece.now bytes.old.items) }
    ensures err { OnErr result (bytes.new.items ≡ bytes.old.items) }
{
    let room = bytes.len() - at;
    if piece.len() <= room {
        bytes[at..at + piece.len()].copy_from_slice(piece);
        return Ok(());
    }
    bytes.extend_from_slice(&piece[room..])?;
    bytes[at..at + room].copy_from_slice(&piece[..room]);
    Ok(())
}
