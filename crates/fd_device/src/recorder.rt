ghost use Rattle.std.specs.Prelude.{◌≡◌, ◌≤◌, ◌<◌, ◌++◌, [], ◌∷◌, length, take, OnOk, OnErr};
ghost use Rattle.std.specs.Prelude.{vec_len, vec_capacity};
ghost use Rattle.fd_device.specs.Disks.{no_files, written, changed, Torn, Cut, Steps};
ghost use Rattle.fd_device.specs.Slots.{lookup};
ghost use Rattle.fd_device.specs.MemFiles.{now_of, base_of, lost_of, torn_of, RestartsUpto};
ghost use Rattle.fd_device.specs.Images.{HoldsSlots, began, recorded, images_of, Stays, Adds};

use crate::FileId;
use crate::changes::Change;
use crate::mem_file::{MemFile, Tear};
use crate::slots::{Slot, find, is_same, place};
use fd_lists::{Bytes, NoMemory};
use std::alloc::Global;
use std::marker::Model;

/// What a read of a file gives.
fn bytes_of(slots: &[Slot<MemFile>], file: FileId) -> &[u8]
    ensures { result.now ≡ lookup now_of slots.now file }
{
    for slot in slots {
        if is_same(file, slot.file) {
            return slot.held.as_slice();
        }
    }
    &[]
}

/// Writes to a file, and tears the write in its torn image.
fn write_slot(
    alloc: Global,
    slots: &mut Vec<Slot<MemFile>>,
    file: FileId,
    at: usize,
    piece: &[u8],
    tear: Tear,
) -> Result<(), NoMemory>
    requires { at ≤ length (lookup now_of slots.old.items file) }
    ensures ok { OnOk result (lookup now_of slots.new.items
        ≡ changed file (written at piece.now) (lookup now_of slots.old.items)) }
    ensures err { OnErr result (lookup now_of slots.new.items ≡ lookup now_of slots.old.items) }
    ensures base { lookup base_of slots.new.items ≡ lookup base_of slots.old.items }
    ensures lost { lookup lost_of slots.new.items ≡ lookup lost_of slots.old.items }
    ensures torn { OnOk result (Steps file (Torn at (length piece.now))
        (lookup torn_of slots.old.items) (lookup torn_of slots.new.items)) }
    ensures torn_err { OnErr result
        (lookup torn_of slots.new.items ≡ lookup torn_of slots.old.items) }
{
    let i = place(slots, file, MemFile::new(alloc))?;
    let slot = &mut slots[i];
    slot.held.write_at(alloc, at, piece, tear)
}

/// Cuts a file, and its torn image or not.
fn cut_slot(
    alloc: Global,
    slots: &mut Vec<Slot<MemFile>>,
    file: FileId,
    size: usize,
    tear: Tear,
) -> Result<(), NoMemory>
    ensures ok { OnOk result (lookup now_of slots.new.items
        ≡ changed file (take size) (lookup now_of slots.old.items)) }
    ensures err { OnErr result (lookup now_of slots.new.items ≡ lookup now_of slots.old.items) }
    ensures base { lookup base_of slots.new.items ≡ lookup base_of slots.old.items }
    ensures lost { lookup lost_of slots.new.items ≡ lookup lost_of slots.old.items }
    ensures torn { OnOk result (Steps file (Cut size)
        (lookup torn_of slots.old.items) (lookup torn_of slots.new.items)) }
    ensures torn_err { OnErr result
        (lookup torn_of slots.new.items ≡ lookup torn_of slots.old.items) }
{
    let i = place(slots, file, MemFile::new(alloc))?;
    let slot = &mut slots[i];
    slot.held.cut(alloc, size, tear)
}

/// What is there of a file is on the disk.
fn sync_slot(slots: &mut Vec<Slot<MemFile>>, file: FileId)
    ensures now { lookup now_of slots.new.items ≡ lookup now_of slots.old.items }
    ensures base { lookup base_of slots.new.items ≡ lookup base_of slots.old.items }
    ensures lost { lookup lost_of slots.new.items
        ≡ changed file (λ _. lookup now_of slots.old.items file) (lookup lost_of slots.old.items) }
    ensures torn { lookup torn_of slots.new.items
        ≡ changed file (λ _. lookup now_of slots.old.items file) (lookup torn_of slots.old.items) }
{
    if let Some(i) = find(slots, file) {
        let slot = &mut slots[i];
        slot.held.sync();
    }
}

/// Each file begins anew with an image of it: the choice has two bits for each of 32 files.
fn restart_all(slots: &mut Vec<Slot<MemFile>>, choice: u64)
    ensures { RestartsUpto (length slots.old.items) slots.old.items slots.new.items }
{
    for i in 0..slots.len() {
        let slot = &mut slots[i];
        slot.held.restart(choice >> (2 * (i % 32)));
    }
}

/// Takes room for one change.
fn reserve_one(changes: &mut Vec<Change>) -> Result<(), NoMemory>
    ensures items { changes.new.items ≡ changes.old.items }
    ensures room { OnOk result (vec_len changes.new < vec_capacity changes.new) }
{
    changes.reserve(1)?;
    Ok(())
}

/// Notes a change.
fn note(changes: &mut Vec<Change>, change: Change)
    requires { vec_len changes.old < vec_capacity changes.old }
    ensures { changes.new.items ≡ changes.old.items ++ change ∷ [] }
{
    changes.push(change).unwrap();
}

/// Writes to a file and notes it.
fn record_write(
    alloc: Global,
    slots: &mut Vec<Slot<MemFile>>,
    changes: &mut Vec<Change>,
    file: FileId,
    at: u64,
    piece: &[u8],
) -> Result<(), NoMemory>
    requires holds { HoldsSlots slots.old.items changes.old.items }
    requires fits { at ≤ length (lookup now_of slots.old.items file) }
    ensures holds { HoldsSlots slots.new.items changes.new.items }
    ensures base { lookup base_of slots.new.items ≡ lookup base_of slots.old.items }
    ensures ok { OnOk result
        (changes.new.items ≡ changes.old.items ++ Change.Write file at piece.now ∷ []) }
    ensures err { OnErr result (changes.new.items ≡ changes.old.items) }
{
    let copy = Bytes::from_slice(alloc, piece)?;
    reserve_one(changes)?;
    let tear = Tear::of(changes.len());
    write_slot(alloc, slots, file, at as usize, piece, tear)?;
    note(changes, Change::Write(file, at, copy));
    Ok(())
}

/// Cuts a file and notes it.
fn record_cut(
    alloc: Global,
    slots: &mut Vec<Slot<MemFile>>,
    changes: &mut Vec<Change>,
    file: FileId,
    size: u64,
) -> Result<(), NoMemory>
    requires holds { HoldsSlots slots.old.items changes.old.items }
    requires fits { size ≤ length (lookup now_of slots.old.items file) }
    ensures holds { HoldsSlots slots.new.items changes.new.items }
    ensures base { lookup base_of slots.new.items ≡ lookup base_of slots.old.items }
    ensures ok { OnOk result
        (changes.new.items ≡ changes.old.items ++ Change.Cut file size ∷ []) }
    ensures err { OnErr result (changes.new.items ≡ changes.old.items) }
{
    reserve_one(changes)?;
    let tear = Tear::of(changes.len());
    cut_slot(alloc, slots, file, size as usize, tear)?;
    note(changes, Change::Cut(file, size));
    Ok(())
}

/// Syncs a file and notes it.
fn record_sync(
    slots: &mut Vec<Slot<MemFile>>,
    changes: &mut Vec<Change>,
    file: FileId,
) -> Result<(), NoMemory>
    requires holds { HoldsSlots slots.old.items changes.old.items }
    ensures holds { HoldsSlots slots.new.items changes.new.items }
    ensures base { lookup base_of slots.new.items ≡ lookup base_of slots.old.items }
    ensures ok { OnOk result (changes.new.items ≡ changes.old.items ++ Change.Sync file ∷ []) }
    ensures err { OnErr result (changes.new.items ≡ changes.old.items) }
{
    reserve_one(changes)?;
    sync_slot(slots, file);
    note(changes, Change::Sync(file));
    Ok(())
}

/// Begins anew with an image of the files.
fn record_restart(slots: &mut Vec<Slot<MemFile>>, changes: &mut Vec<Change>, choice: u64)
    requires holds { HoldsSlots slots.old.items changes.old.items }
    ensures holds { HoldsSlots slots.new.items changes.new.items }
    ensures image { images_of (lookup base_of slots.old.items) changes.old.items
        (lookup base_of slots.new.items) }
    ensures changes { changes.new.items ≡ [] }
{
    restart_all(slots, choice);
    changes.clear();
}

/// Files in memory, what was done to them, and images of them.
#[derive(Drop)]
pub(crate) struct Recorder {
    alloc: Global,
    slots: Vec<Slot<MemFile>>,
    changes: Vec<Change>,
}

impl Model for Recorder {
    ghost use Rattle.fd_device.specs.MemFiles.{bases};
    ghost use Rattle.fd_device.specs.Images.{Recording, HoldsSlots};

    ghost Value = { Recording };

    ghost view = { λ r. record { base = bases r.slots.items; changes = r.changes.items } };

    ghost invariant = { λ r. HoldsSlots r.slots.items r.changes.items };
}

impl Recorder {
    /// No files. It takes no memory.
    pub fn new(alloc: Global) -> Recorder
        ensures base { result.base ≡ [] }
        ensures changes { result.changes ≡ [] }
    {
        Recorder {
            alloc,
            slots: Vec::new(alloc),
            changes: Vec::new(alloc),
        }
    }

    /// What a read of a file gives.
    pub fn bytes_of(&self, file: FileId) -> &[u8]
        ensures { result.now ≡ recorded self.now file }
    {
        bytes_of(&self.slots, file)
    }

    /// Writes to a file.
    pub fn write_at(&mut self, file: FileId, at: u64, piece: &[u8]) -> Result<(), NoMemory>
        requires { at ≤ length (recorded self.old file) }
        ensures ok { OnOk result (Adds (Change.Write file at piece.now) self.old self.new) }
        ensures err { OnErr result (Stays self.old self.new) }
    {
        record_write(
            self.alloc,
            &mut self.slots,
            &mut self.changes,
            file,
            at,
            piece,
        )
    }

    /// Cuts a file.
    pub fn cut(&mut self, file: FileId, size: u64) -> Result<(), NoMemory>
        requires { size ≤ length (recorded self.old file) }
        ensures ok { OnOk result (Adds (Change.Cut file size) self.old self.new) }
        ensures err { OnErr result (Stays self.old self.new) }
    {
        record_cut(self.alloc, &mut self.slots, &mut self.changes, file, size)
    }

    /// What is there of a file is on the disk.
    pub fn sync(&mut self, file: FileId) -> Result<(), NoMemory>
        ensures ok { OnOk result (Adds (Change.Sync file) self.old self.new) }
        ensures err { OnErr result (Stays self.old self.new) }
    {
        record_sync(&mut self.slots, &mut self.changes, file)
    }

    /// Begins anew with an image of the files. It takes no memory.
    pub fn restart(&mut self, choice: u64)
        ensures image { images_of (began self.old) self.old.changes (began self.new) }
        ensures changes { self.new.changes ≡ [] }
    {
        record_restart(&mut self.slots, &mut self.changes, choice);
    }
}
