ghost use Rattle.std.specs.Prelude.{◌≡◌, ◌≤◌, [], Some, length, take, OnOk, OnErr, IfOk};
ghost use Rattle.fd_device.specs.Disks.{written, Torn, Cut};
ghost use Rattle.fd_device.specs.MemFiles.{base_of, lost_of, torn_of, Restarts};

use crate::file_bytes::FileBytes;
use fd_lists::NoMemory;
use std::alloc::Global;

/// What a crash leaves of a write that is not synced.
#[derive(Clone, Copy)]
pub(crate) enum Tear {
    Nothing,
    /// The first half of the bytes.
    Half,
    /// As many zeros.
    Zeros,
    /// As many ones.
    Ones,
}

impl Tear {
    /// The tear of the n-th change.
    pub fn of(n: usize) -> Tear {
        match n % 4 {
            0 => Tear::Half,
            1 => Tear::Ones,
            2 => Tear::Zeros,
            _ => Tear::Nothing,
        }
    }

    /// What is left of a piece.
    fn part(self, alloc: Global, piece: &[u8]) -> Result<Vec<u8>, NoMemory>
        ensures { IfOk result (λ part. length part.items ≤ length piece.now) }
    {
        let part = match self {
            Tear::Nothing => Vec::new(alloc),
            Tear::Half => Vec::from_slice(alloc, &piece[..piece.len() / 2])?,
            Tear::Zeros => vec![in alloc; 0u8; piece.len()]?,
            Tear::Ones => vec![in alloc; 1u8; piece.len()]?,
        };
        Ok(part)
    }
}

/// A file of a disk in memory, with images of it. An image that is not there is the file itself.
#[derive(Drop)]
pub(crate) struct MemFile {
    bytes: FileBytes,
    base: Option<FileBytes>,
    lost: Option<FileBytes>,
    torn: Option<FileBytes>,
}

/// A copy with a torn write of the piece, where it reaches.
#[tactic(auto, using(crate::proofs::ChangeSteps::torn_copy, crate::proofs::ChangeSteps::torn_writes))]
fn torn_write(
    alloc: Global,
    bytes: &[u8],
    at: usize,
    piece: &[u8],
    tear: Tear,
) -> Result<FileBytes, NoMemory>
    ensures { IfOk result (λ torn. Torn at (length piece.now) bytes.now torn) }
{
    let mut copy = FileBytes::copy_of(alloc, bytes)?;
    if at > bytes.len() {
        return Ok(copy);
    }
    let part = tear.part(alloc, piece)?;
    copy.write_at(at, part.as_slice())?;
    Ok(copy)
}

impl MemFile {
    /// A file without bytes. It takes no memory.
    pub fn new(alloc: Global) -> MemFile
        ensures bytes { result.bytes ≡ [] }
        ensures base { base_of result ≡ [] }
        ensures lost { lost_of result ≡ [] }
        ensures torn { torn_of result ≡ [] }
    {
        MemFile {
            bytes: FileBytes::new(alloc),
            base: None,
            lost: None,
            torn: None,
        }
    }

    /// What a read gives.
    pub fn as_slice(&self) -> &[u8]
        ensures { result.now ≡ self.now.bytes }
    {
        self.bytes.as_slice()
    }

    /// The torn image.
    fn torn(&self) -> &[u8]
        ensures { result.now ≡ torn_of self.now }
    {
        match &self.torn {
            Some(torn) => torn.as_slice(),
            None => self.bytes.as_slice(),
        }
    }

    /// Makes each image that is not there.
    fn keep(&mut self, alloc: Global) -> Result<(), NoMemory>
        ensures bytes { self.new.bytes ≡ self.old.bytes }
        ensures base { base_of self.new ≡ base_of self.old }
        ensures lost { lost_of self.new ≡ lost_of self.old }
        ensures torn { torn_of self.new ≡ torn_of self.old }
        ensures base_kept { OnOk result (self.new.base ≡ Some (base_of self.old)) }
        ensures lost_kept { OnOk result (self.new.lost ≡ Some (lost_of self.old)) }
        ensures torn_kept { OnOk result (self.new.torn ≡ Some (torn_of self.old)) }
    {
        if self.base.is_none() {
            self.base = Some(FileBytes::copy_of(alloc, self.bytes.as_slice())?);
        }
        if self.lost.is_none() {
            self.lost = Some(FileBytes::copy_of(alloc, self.bytes.as_slice())?);
        }
        if self.torn.is_none() {
            self.torn = Some(FileBytes::copy_of(alloc, self.bytes.as_slice())?);
        }
        Ok(())
    }

    /// Writes over what is there, and past the end.
    pub fn write_at(
        &mut self,
        alloc: Global,
        at: usize,
        piece: &[u8],
        tear: Tear,
    ) -> Result<(), NoMemory>
        requires { at ≤ length self.old.bytes }
        ensures ok { OnOk result (self.new.bytes ≡ written at piece.now self.old.bytes) }
        ensures err { OnErr result (self.new.bytes ≡ self.old.bytes) }
        ensures base { base_of self.new ≡ base_of self.old }
        ensures lost { lost_of self.new ≡ lost_of self.old }
        ensures torn { OnOk result
            (Torn at (length piece.now) (torn_of self.old) (torn_of self.new)) }
        ensures torn_err { OnErr result (torn_of self.new ≡ torn_of self.old) }
    {
        let torn = torn_write(alloc, self.torn(), at, piece, tear)?;
        self.keep(alloc)?;
        self.bytes.write_at(at, piece)?;
        self.torn = Some(torn);
        Ok(())
    }

    /// Cuts the file to a length.
    pub fn cut(&mut self, alloc: Global, size: usize, tear: Tear) -> Result<(), NoMemory>
        ensures ok { OnOk result (self.new.bytes ≡ take size self.old.bytes) }
        ensures err { OnErr result (self.new.bytes ≡ self.old.bytes) }
        ensures base { base_of self.new ≡ base_of self.old }
        ensures lost { lost_of self.new ≡ lost_of self.old }
        ensures torn { OnOk result (Cut size (torn_of self.old) (torn_of self.new)) }
        ensures torn_err { OnErr result (torn_of self.new ≡ torn_of self.old) }
    {
        self.keep(alloc)?;
        self.bytes.truncate(size);
        if let Some(torn) = &mut self.torn {
            cut_torn(torn, size, tear);
        }
        Ok(())
    }

    /// What is there is on the disk. It takes no memory.
    pub fn sync(&mut self)
        ensures bytes { self.new.bytes ≡ self.old.bytes }
        ensures base { base_of self.new ≡ base_of self.old }
        ensures lost { lost_of self.new ≡ self.old.bytes }
        ensures torn { torn_of self.new ≡ self.old.bytes }
    {
        self.lost = None;
        self.torn = None;
    }

    /// Begins anew with an image of the file. It takes no memory.
    pub fn restart(&mut self, choice: u64)
        ensures { Restarts self.old self.new }
    {
        let lost = self.lost.take();
        let torn = self.torn.take();
        self.base = None;
        let image = match choice % 4 {
            0 => None,
            1 => lost,
            _ => torn,
        };
        if let Some(bytes) = image {
            self.bytes = bytes;
        }
    }
}

/// Cuts a torn image, or not.
fn cut_torn(torn: &mut FileBytes, size: usize, tear: Tear)
    ensures { Cut size torn.old torn.new }
{
    match tear {
        Tear::Half | Tear::Zeros => torn.truncate(size),
        Tear::Ones | Tear::Nothing => {}
    }
}
