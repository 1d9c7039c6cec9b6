ghost use Rattle.std.specs.Prelude.{◌≡◌, [], ◌↔◌, Contains, IsOk, IfOk, ◌⊎◌, ◌<◌, ◌≤◌};
ghost use Rattle.std.specs.Prelude.{length, Some};
ghost use Rattle.fd_device.specs.Causes.{Rose, next_count};
ghost use Rattle.fd_device.specs.Streams.{FitsPiece, TakesBytes, TakenCause, PutsBytes, PutCause};

use crate::calls::Schedule;
use crate::source::copy_front;
use crate::{Calls, Put, Sink, Source, Taken};
use fd_lists::{Bytes, NoMemory};
use std::alloc::Global;
use std::marker::Model;

/// Gives bytes that are in memory. Of its reads those fail that are listed by their numbers, from
/// 1; a read that fails gives nothing.
#[derive(Drop)]
pub struct MemSource {
    bytes: Bytes,
    place: usize,
    schedule: Schedule,
}

impl Model for MemSource {
    ghost use Rattle.std.specs.Prelude.{drop, length, ◌≤◌};
    ghost use Rattle.fd_device.specs.Memory.{Fed};

    ghost Value = { Fed };

    ghost view = { λ s. record {
      left = drop s.place s.bytes;
      fails = s.schedule.fails;
      calls = s.schedule.calls;
      faults = s.schedule.faults;
    } };

    ghost invariant = { λ s. s.place ≤ length s.bytes };
}

impl MemSource {
    /// A source of these bytes. It takes no memory.
    pub fn new(bytes: Bytes, fails: Calls) -> Result<MemSource, NoMemory>
        ensures made { IsOk result }
        ensures left { IfOk result (λ s. s.left ≡ bytes) }
        ensures fails { IfOk result (λ s. s.fails ≡ fails) }
        ensures calls { IfOk result (λ s. s.calls ≡ 0) }
        ensures faults { IfOk result (λ s. s.faults ≡ 0) }
    {
        Ok(MemSource {
            bytes,
            place: 0,
            schedule: Schedule::new(fails),
        })
    }
}

impl Source for MemSource {
    ghost left = { λ s. Some s.left };

    ghost faults = { λ s. s.faults };

    fn read(&mut self, piece: &mut [u8]) -> Taken
        requires { 0 < length piece.old }
        ensures bound { FitsPiece result piece.new }
        ensures bytes { TakesBytes (Some self.old.left) (Some self.new.left) result piece.new }
        ensures cause { TakenCause self.old.faults self.new.faults result }
        ensures listed { (result ≡ Taken.Failed)
            ↔ Contains self.old.fails (next_count self.old.calls) }
        ensures calls { self.new.calls ≡ next_count self.old.calls }
        ensures fails { self.new.fails ≡ self.old.fails }
    {
        if self.schedule.is_listed() {
            return Taken::Failed;
        }
        let count = copy_front(&self.bytes.as_slice()[self.place..], piece);
        self.place += count;
        Taken::Got(count)
    }
}

/// Takes bytes into memory. Of its writes those fail that are listed by their numbers, from 1, and
/// those that find no memory; a write that fails takes nothing.
#[derive(Drop)]
pub struct MemSink {
    taken: Bytes,
    schedule: Schedule,
    starved: u64,
}

impl Model for MemSink {
    ghost use Rattle.fd_device.specs.Memory.{Filled};

    ghost Value = { Filled };

    ghost view = { λ s. record {
      taken = s.taken;
      fails = s.schedule.fails;
      calls = s.schedule.calls;
      faults = s.schedule.faults;
      starved = s.starved;
    } };
}

impl MemSink {
    /// A sink that has taken nothing. It takes no memory.
    pub fn new(alloc: Global, fails: Calls) -> Result<MemSink, NoMemory>
        ensures made { IsOk result }
        ensures taken { IfOk result (λ s. s.taken ≡ []) }
        ensures fails { IfOk result (λ s. s.fails ≡ fails) }
        ensures calls { IfOk result (λ s. s.calls ≡ 0) }
        ensures faults { IfOk result (λ s. s.faults ≡ 0) }
        ensures starved { IfOk result (λ s. s.starved ≡ 0) }
    {
        Ok(MemSink {
            taken: Bytes::new(alloc),
            schedule: Schedule::new(fails),
            starved: 0,
        })
    }

    /// The bytes taken so far.
    pub fn taken(&self) -> &[u8]
        ensures { result.now ≡ self.now.taken }
    {
        self.taken.as_slice()
    }

    /// How many writes found no memory.
    pub fn starved(&self) -> u64
        ensures { result ≡ self.now.starved }
    {
        self.starved
    }
}

impl Sink for MemSink {
    ghost taken = { λ s. Some s.taken };

    ghost faults = { λ s. s.faults };

    fn write(&mut self, piece: &[u8]) -> Put
        ensures bytes { PutsBytes (Some self.old.taken) (Some self.new.taken) result piece.now }
        ensures cause { PutCause self.old.faults self.new.faults result }
        ensures listed { Contains self.old.fails (next_count self.old.calls) → result ≡ Put.Failed }
        ensures starved { result ≡ Put.Failed
            → Contains self.old.fails (next_count self.old.calls)
            ⊎ Rose self.old.starved self.new.starved }
        ensures done { result ≡ Put.Done → self.new.starved ≡ self.old.starved }

        // A listed failure is no want of memory.
        ensures listed_only { Contains self.old.fails (next_count self.old.calls)
            → self.new.starved ≡ self.old.starved }
        ensures grows { self.old.starved ≤ self.new.starved }
        ensures calls { self.new.calls ≡ next_count self.old.calls }
        ensures fails { self.new.fails ≡ self.old.fails }
    {
        if self.schedule.is_listed() {
            return Put::Failed;
        }
        match self.taken.extend(piece) {
            Ok(()) => Put::Done,
            Err(NoMemory) => {
                self.schedule.raise();
                self.starved = self.starved.saturating_add(1);
                Put::Failed
            }
        }
    }
}
