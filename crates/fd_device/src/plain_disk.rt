ghost use Rattle.std.specs.Prelude.{◌≡◌, ◌≤◌, ◌++◌, [], ◌∷◌, length, take, OnOk, OnErr, IsOk, IfOk};
ghost use Rattle.fd_device.specs.Disks.{written, changed};
ghost use Rattle.fd_device.specs.Slots.{lookup};

use crate::changes::Change;
use crate::file_bytes::FileBytes;
use crate::slots::{Slot, find, is_same, place};
use crate::{Disk, DiskFault, FileId};
use fd_lists::{Bytes, NoMemory};
use std::alloc::Global;
use std::marker::Model;

/// The bytes of a file.
fn bytes_of(slots: &[Slot<FileBytes>], file: FileId) -> &[u8]
    ensures { result.now ≡ lookup (λ held. held) slots.now file }
{
    for slot in slots {
        if is_same(file, slot.file) {
            return slot.held.as_slice();
        }
    }
    &[]
}

/// Writes to a file.
fn write_slot(
    alloc: Global,
    slots: &mut Vec<Slot<FileBytes>>,
    file: FileId,
    at: usize,
    piece: &[u8],
) -> Result<(), NoMemory>
    requires { at ≤ length (lookup (λ held. held) slots.old.items file) }
    ensures ok { OnOk result (lookup (λ held. held) slots.new.items
        ≡ changed file (written at piece.now) (lookup (λ held. held) slots.old.items)) }
    ensures err { OnErr result
        (lookup (λ held. held) slots.new.items ≡ lookup (λ held. held) slots.old.items) }
{
    let i = place(slots, file, FileBytes::new(alloc))?;
    let slot = &mut slots[i];
    slot.held.write_at(at, piece)
}

/// Notes a write and does it.
fn record_write(
    alloc: Global,
    slots: &mut Vec<Slot<FileBytes>>,
    changes: &mut Vec<Change>,
    file: FileId,
    at: u64,
    piece: &[u8],
) -> Result<(), NoMemory>
    requires { at ≤ length (lookup (λ held. held) slots.old.items file) }
    ensures done { OnOk result (lookup (λ held. held) slots.new.items
        ≡ changed file (written at piece.now) (lookup (λ held. held) slots.old.items)) }
    ensures noted { OnOk result
        (changes.new.items ≡ changes.old.items ++ Change.Write file at piece.now ∷ []) }
    ensures kept { OnErr result
        (lookup (λ held. held) slots.new.items ≡ lookup (λ held. held) slots.old.items) }
    ensures same { OnErr result (changes.new.items ≡ changes.old.items) }
{
    let copy = Bytes::from_slice(alloc, piece)?;
    changes.reserve(1)?;
    write_slot(alloc, slots, file, at as usize, piece)?;
    changes.push(Change::Write(file, at, copy)).unwrap();
    Ok(())
}

/// Cuts a file.
fn cut_slot(slots: &mut Vec<Slot<FileBytes>>, file: FileId, size: usize)
    ensures { lookup (λ held. held) slots.new.items
        ≡ changed file (take size) (lookup (λ held. held) slots.old.items) }
{
    if let Some(i) = find(slots, file) {
        let slot = &mut slots[i];
        slot.held.truncate(size);
    }
}

/// Notes a cut and does it.
fn record_cut(
    slots: &mut Vec<Slot<FileBytes>>,
    changes: &mut Vec<Change>,
    file: FileId,
    size: u64,
) -> Result<(), NoMemory>
    ensures done { OnOk result (lookup (λ held. held) slots.new.items
        ≡ changed file (take size) (lookup (λ held. held) slots.old.items)) }
    ensures noted { OnOk result
        (changes.new.items ≡ changes.old.items ++ Change.Cut file size ∷ []) }
    ensures kept { OnErr result
        (lookup (λ held. held) slots.new.items ≡ lookup (λ held. held) slots.old.items) }
    ensures same { OnErr result (changes.new.items ≡ changes.old.items) }
{
    changes.push(Change::Cut(file, size))?;
    cut_slot(slots, file, size as usize);
    Ok(())
}

/// A disk in memory on which each call is done at once: a crash at any moment leaves what a read
/// gives. It fails only where memory is wanting. It keeps all that is written, also what is
/// written over.
#[derive(Drop)]
pub struct PlainDisk {
    alloc: Global,
    slots: Vec<Slot<FileBytes>>,
    changes: Vec<Change>,
    starved: u64,
}

impl Model for PlainDisk {
    ghost use Rattle.std.specs.Prelude.{◌≡◌};
    ghost use Rattle.fd_device.specs.Disks.{no_files};
    ghost use Rattle.fd_device.specs.Slots.{lookup};
    ghost use Rattle.fd_device.specs.Changes.{Done, replay};

    ghost Value = { Done };

    ghost view = { λ d. record { changes = d.changes.items; starved = d.starved } };

    ghost invariant = { λ d.
        lookup (λ held. held) d.slots.items ≡ replay d.changes.items no_files };
}

impl PlainDisk {
    /// A disk without files. It takes no memory.
    pub fn new(alloc: Global) -> Result<PlainDisk, NoMemory>
        ensures made { IsOk result }
        ensures changes { IfOk result (λ d. d.changes ≡ []) }
        ensures starved { IfOk result (λ d. d.starved ≡ 0) }
    {
        Ok(PlainDisk {
            alloc,
            slots: Vec::new(alloc),
            changes: Vec::new(alloc),
            starved: 0,
        })
    }

    /// How many calls found no memory.
    pub fn starved(&self) -> u64
        ensures { result ≡ self.now.starved }
    {
        self.starved
    }
}

impl Disk for PlainDisk {
    ghost use Rattle.std.specs.Prelude.{◌≡◌, length};
    ghost use Rattle.fd_device.specs.Changes.{contents, WasAt, was_now, only_now};

    ghost honest = { λ _. Unit {0} };

    ghost seen = { contents };

    ghost may_leave = { λ d image. image ≡ contents d };

    ghost moment = { λ d. length d.changes };

    ghost left_since = { λ d t image. WasAt d.changes t image };

    ghost faults = { λ d. d.starved };

    ghost counts_now = { λ d t image honest late now. was_now d t image late now };

    ghost only_now = { λ d image honest was. only_now d image was };

    fn length(&mut self, file: FileId) -> Result<u64, DiskFault> {
        Ok(bytes_of(&self.slots, file).len() as u64)
    }

    fn read_at(&mut self, file: FileId, at: u64, piece: &mut [u8]) -> Result<(), DiskFault> {
        let start = at as usize;
        piece.copy_from_slice(&bytes_of(&self.slots, file)[start..start + piece.len()]);
        Ok(())
    }

    fn write_at(&mut self, file: FileId, at: u64, piece: &[u8]) -> Result<(), DiskFault> {
        match record_write(
            self.alloc,
            &mut self.slots,
            &mut self.changes,
            file,
            at,
            piece,
        ) {
            Ok(()) => Ok(()),
            Err(NoMemory) => {
                self.starved = self.starved.saturating_add(1);
                Err(DiskFault)
            }
        }
    }

    fn cut(&mut self, file: FileId, size: u64) -> Result<(), DiskFault> {
        match record_cut(&mut self.slots, &mut self.changes, file, size) {
            Ok(()) => Ok(()),
            Err(NoMemory) => {
                self.starved = self.starved.saturating_add(1);
                Err(DiskFault)
            }
        }
    }

    fn sync(&mut self, _file: FileId) -> Result<(), DiskFault> {
        Ok(())
    }

    fn faults(&self) -> u64 {
        self.starved
    }
}
