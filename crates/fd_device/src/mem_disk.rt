ghost use Rattle.std.specs.Prelude.{◌≡◌, ◌≤◌, ◌+◌, [], length, take, drop};
ghost use Rattle.std.specs.Prelude.{OnOk, OnErr, IsOk, IfOk, MatchResult};
ghost use Rattle.fd_device.specs.Images.{present, pending_images, past_images, Stays, Adds};
ghost use Rattle.fd_device.specs.Images.{Passes, Fails};
ghost use Rattle.fd_device.specs.Disks.{written, changed, Torn, Cut, Steps, Follows};
ghost use Rattle.fd_device.specs.Disks.{NoneNew, IsDurable, Elapses};
ghost use Rattle.fd_device.specs.Causes.{Rose};

use crate::calls::Schedule;
use crate::changes::Change;
use crate::recorder::Recorder;
use crate::{Calls, Disk, DiskFault, FileId};
use fd_lists::NoMemory;
use std::alloc::Global;
use std::marker::Model;

/// A disk in memory of which a crash leaves any bytes of what is not synced. Of its calls those
/// fail that are listed by their numbers, from 1, and those that find no memory; a call that fails
/// does nothing. `length`, `read_at`, `write_at`, `cut` and `sync` are numbered.
///
/// It keeps all that is written, also what is written over, and copies a file at each change.
#[derive(Drop)]
pub struct MemDisk {
    recorder: Recorder,
    schedule: Schedule,
    starved: u64,
}

impl Model for MemDisk {
    ghost use Rattle.fd_device.specs.Images.{Pending};

    ghost Value = { Pending };

    ghost view = { λ d. record {
      recording = d.recorder;
      fails = d.schedule.fails;
      calls = d.schedule.calls;
      faults = d.schedule.faults;
      starved = d.starved;
    } };
}

impl MemDisk {
    /// A disk without files. It takes no memory.
    pub fn new(alloc: Global, fails: Calls) -> Result<MemDisk, NoMemory>
        ensures made { IsOk result }
        ensures base { IfOk result (λ d. d.recording.base ≡ []) }
        ensures changes { IfOk result (λ d. d.recording.changes ≡ []) }
        ensures fails { IfOk result (λ d. d.fails ≡ fails) }
        ensures calls { IfOk result (λ d. d.calls ≡ 0) }
        ensures faults { IfOk result (λ d. d.faults ≡ 0) }
        ensures starved { IfOk result (λ d. d.starved ≡ 0) }
    {
        Ok(MemDisk {
            recorder: Recorder::new(alloc),
            schedule: Schedule::new(fails),
            starved: 0,
        })
    }

    /// How many calls found no memory.
    pub fn starved(&self) -> u64
        ensures { result ≡ self.now.starved }
    {
        self.starved
    }

    /// Makes one of the images that a crash may leave the present content, as after a crash and a
    /// start: nothing is pending then. The choice has two bits for each of the first 32 files: 0
    /// leaves what is there, 1 nothing since the last sync, 2 and 3 a torn part of it. It is no
    /// numbered call, and takes no memory.
    pub fn image(&mut self, choice: u64)
        ensures image { pending_images self.old (present self.new) }
        ensures settled { self.new.recording.changes ≡ [] }
        ensures fails { self.new.fails ≡ self.old.fails }
        ensures calls { self.new.calls ≡ self.old.calls }
        ensures faults { self.new.faults ≡ self.old.faults }
        ensures starved { self.new.starved ≡ self.old.starved }
    {
        self.recorder.restart(choice);
    }

    /// Counts a fault for want of memory.
    fn starve(&mut self) -> DiskFault
        ensures recording { self.new.recording ≡ self.old.recording }
        ensures fails { self.new.fails ≡ self.old.fails }
        ensures calls { self.new.calls ≡ self.old.calls }
        ensures faults { Rose self.old.faults self.new.faults }
        ensures starved { Rose self.old.starved self.new.starved }
    {
        self.schedule.raise();
        self.starved = self.starved.saturating_add(1);
        DiskFault
    }

    fn write(&mut self, file: FileId, at: u64, piece: &[u8]) -> Result<(), DiskFault>
        requires { at ≤ length (present self.old file) }
        ensures ok { OnOk result (Adds (Change.Write file at piece.now)
            self.old.recording self.new.recording) }
        ensures err { OnErr result (Stays self.old.recording self.new.recording) }
        ensures schedule { MatchResult result (λ _. Passes self.old self.new)
            (λ _. Fails self.old self.new) }
        ensures cause { MatchResult result (λ _. self.new.faults ≡ self.old.faults)
            (λ _. Rose self.old.faults self.new.faults) }
    {
        if self.schedule.is_listed() {
            return Err(DiskFault);
        }
        match self.recorder.write_at(file, at, piece) {
            Ok(()) => Ok(()),
            Err(NoMemory) => Err(self.starve()),
        }
    }

    fn shorten(&mut self, file: FileId, size: u64) -> Result<(), DiskFault>
        requires { size ≤ length (present self.old file) }
        ensures ok { OnOk result (Adds (Change.Cut file size)
            self.old.recording self.new.recording) }
        ensures err { OnErr result (Stays self.old.recording self.new.recording) }
        ensures schedule { MatchResult result (λ _. Passes self.old self.new)
            (λ _. Fails self.old self.new) }
        ensures cause { MatchResult result (λ _. self.new.faults ≡ self.old.faults)
            (λ _. Rose self.old.faults self.new.faults) }
    {
        if self.schedule.is_listed() {
            return Err(DiskFault);
        }
        match self.recorder.cut(file, size) {
            Ok(()) => Ok(()),
            Err(NoMemory) => Err(self.starve()),
        }
    }

    fn settle(&mut self, file: FileId) -> Result<(), DiskFault>
        ensures ok { OnOk result (Adds (Change.Sync file) self.old.recording self.new.recording) }
        ensures err { OnErr result (Stays self.old.recording self.new.recording) }
        ensures schedule { MatchResult result (λ _. Passes self.old self.new)
            (λ _. Fails self.old self.new) }
        ensures cause { MatchResult result (λ _. self.new.faults ≡ self.old.faults)
            (λ _. Rose self.old.faults self.new.faults) }
    {
        if self.schedule.is_listed() {
            return Err(DiskFault);
        }
        match self.recorder.sync(file) {
            Ok(()) => Ok(()),
            Err(NoMemory) => Err(self.starve()),
        }
    }
}

impl Disk for MemDisk {
    ghost use Rattle.std.specs.Prelude.{length};
    ghost use Rattle.fd_device.specs.Images.{began, present, pending_images, past_images};
    ghost use Rattle.fd_device.specs.Images.{image_now, image_only_now};

    ghost honest = { λ _. Unit {0} };

    ghost seen = { present };

    ghost may_leave = { pending_images };

    ghost moment = { λ d. length d.recording.changes };

    ghost left_since = { past_images };

    ghost faults = { λ d. d.faults };

    ghost counts_now = { λ d t image honest late now.
        image_now (began d.recording) d.recording.changes t image late now };

    ghost only_now = { λ d image honest was.
        image_only_now (began d.recording) d.recording.changes image was };

    fn length(&mut self, file: FileId) -> Result<u64, DiskFault>
        ensures value { IfOk result (λ n. n ≡ length (present self.old file)) }
        ensures seen { present self.new ≡ present self.old }
        ensures crash { NoneNew (pending_images self.old) (pending_images self.new) }
        ensures time { Elapses (length self.old.recording.changes)
            (length self.new.recording.changes) (past_images self.old) (past_images self.new)
            (pending_images self.new) }
        ensures cause { MatchResult result (λ _. self.new.faults ≡ self.old.faults)
            (λ _. Rose self.old.faults self.new.faults) }
        ensures schedule { MatchResult result (λ _. Passes self.old self.new)
            (λ _. Fails self.old self.new) }
    {
        if self.schedule.is_listed() {
            return Err(DiskFault);
        }
        Ok(self.recorder.bytes_of(file).len() as u64)
    }

    fn read_at(&mut self, file: FileId, at: u64, piece: &mut [u8]) -> Result<(), DiskFault>
        requires { at + length piece.old ≤ length (present self.old file) }
        ensures bytes { OnOk result
            (piece.new ≡ take (length piece.old) (drop at (present self.old file))) }
        ensures seen { present self.new ≡ present self.old }
        ensures crash { NoneNew (pending_images self.old) (pending_images self.new) }
        ensures time { Elapses (length self.old.recording.changes)
            (length self.new.recording.changes) (past_images self.old) (past_images self.new)
            (pending_images self.new) }
        ensures cause { MatchResult result (λ _. self.new.faults ≡ self.old.faults)
            (λ _. Rose self.old.faults self.new.faults) }
        ensures schedule { MatchResult result (λ _. Passes self.old self.new)
            (λ _. Fails self.old self.new) }
    {
        if self.schedule.is_listed() {
            return Err(DiskFault);
        }
        let start = at as usize;
        piece.copy_from_slice(&self.recorder.bytes_of(file)[start..start + piece.len()]);
        Ok(())
    }

    fn write_at(&mut self, file: FileId, at: u64, piece: &[u8]) -> Result<(), DiskFault>
        requires { at ≤ length (present self.old file) }
        ensures written { OnOk result
            (present self.new ≡ changed file (written at piece.now) (present self.old)) }
        ensures failed { OnErr result
            (Steps file (Torn at (length piece.now)) (present self.old) (present self.new)) }
        ensures crash { Follows (Steps file (Torn at (length piece.now)))
            (pending_images self.old) (pending_images self.new) }
        ensures time { Elapses (length self.old.recording.changes)
            (length self.new.recording.changes) (past_images self.old) (past_images self.new)
            (pending_images self.new) }
        ensures cause { MatchResult result (λ _. self.new.faults ≡ self.old.faults)
            (λ _. Rose self.old.faults self.new.faults) }
        ensures schedule { MatchResult result (λ _. Passes self.old self.new)
            (λ _. Fails self.old self.new) }
    {
        self.write(file, at, piece)
    }

    fn cut(&mut self, file: FileId, size: u64) -> Result<(), DiskFault>
        requires { size ≤ length (present self.old file) }
        ensures cut { OnOk result
            (present self.new ≡ changed file (take size) (present self.old)) }
        ensures failed { OnErr result
            (Steps file (Cut size) (present self.old) (present self.new)) }
        ensures crash { Follows (Steps file (Cut size))
            (pending_images self.old) (pending_images self.new) }
        ensures time { Elapses (length self.old.recording.changes)
            (length self.new.recording.changes) (past_images self.old) (past_images self.new)
            (pending_images self.new) }
        ensures cause { MatchResult result (λ _. self.new.faults ≡ self.old.faults)
            (λ _. Rose self.old.faults self.new.faults) }
        ensures schedule { MatchResult result (λ _. Passes self.old self.new)
            (λ _. Fails self.old self.new) }
    {
        self.shorten(file, size)
    }

    fn sync(&mut self, file: FileId) -> Result<(), DiskFault>
        ensures durable { OnOk result
            (IsDurable file (present self.old) (pending_images self.new)) }
        ensures seen { present self.new ≡ present self.old }
        ensures crash { NoneNew (pending_images self.old) (pending_images self.new) }
        ensures time { Elapses (length self.old.recording.changes)
            (length self.new.recording.changes) (past_images self.old) (past_images self.new)
            (pending_images self.new) }
        ensures cause { MatchResult result (λ _. self.new.faults ≡ self.old.faults)
            (λ _. Rose self.old.faults self.new.faults) }
        ensures schedule { MatchResult result (λ _. Passes self.old self.new)
            (λ _. Fails self.old self.new) }
    {
        self.settle(file)
    }

    fn faults(&self) -> u64 {
        self.schedule.faults
    }
}
