ghost use Rattle.std.specs.Prelude.{◌≡◌, [], IsOk, IfOk, ◌↔◌, length, ◌<◌, Some};
ghost use Rattle.fd_device.specs.Causes.{Rose};
ghost use Rattle.fd_device.specs.Streams.{PutsBytes, PutCause};

use crate::source::copy_front;
use crate::{Put, Sink, Source, Taken};
use fd_lists::{Bytes, NoMemory};
use std::alloc::Global;
use std::marker::Model;

/// Gives bytes that are in memory, and never fails.
#[derive(Drop)]
pub struct PlainSource {
    bytes: Bytes,
    place: usize,
}

impl Model for PlainSource {
    ghost use Rattle.std.specs.Prelude.{List, ℕ, drop, length, ◌≤◌};

    ghost Value = { List ℕ };

    ghost view = { λ s. drop s.place s.bytes };

    ghost invariant = { λ s. s.place ≤ length s.bytes };
}

impl PlainSource {
    /// A source of these bytes. It takes no memory.
    pub fn new(bytes: Bytes) -> Result<PlainSource, NoMemory>
        ensures made { IsOk result }
        ensures left { IfOk result (λ s. s ≡ bytes) }
    {
        Ok(PlainSource { bytes, place: 0 })
    }
}

impl Source for PlainSource {
    ghost left = { λ s. Some s };

    ghost faults = { λ _. 0 };

    fn read(&mut self, piece: &mut [u8]) -> Taken {
        let count = copy_front(&self.bytes.as_slice()[self.place..], piece);
        self.place += count;
        Taken::Got(count)
    }
}

/// Takes bytes into memory, and fails only where a write finds no memory.
#[derive(Drop)]
pub struct PlainSink {
    taken: Bytes,
    starved: u64,
}

impl Model for PlainSink {
    ghost use Rattle.std.specs.Prelude.{List, ℕ};

    ghost Value = { List ℕ × ℕ };

    ghost view = { λ s. (s.taken, s.starved) };
}

impl PlainSink {
    /// A sink that has taken nothing. It takes no memory.
    pub fn new(alloc: Global) -> Result<PlainSink, NoMemory>
        ensures made { IsOk result }
        ensures taken { IfOk result (λ s. s.0 ≡ []) }
        ensures starved { IfOk result (λ s. s.1 ≡ 0) }
    {
        Ok(PlainSink {
            taken: Bytes::new(alloc),
            starved: 0,
        })
    }

    /// The bytes taken so far.
    pub fn taken(&self) -> &[u8]
        ensures { result.now ≡ self.now.0 }
    {
        self.taken.as_slice()
    }

    /// How many writes found no memory.
    pub fn starved(&self) -> u64
        ensures { result ≡ self.now.1 }
    {
        self.starved
    }
}

impl Sink for PlainSink {
    ghost taken = { λ s. Some s.0 };

    ghost faults = { λ s. s.1 };

    fn write(&mut self, piece: &[u8]) -> Put {
        match self.taken.extend(piece) {
            Ok(()) => Put::Done,
            Err(NoMemory) => {
                self.starved = self.starved.saturating_add(1);
                Put::Failed
            }
        }
    }
}
