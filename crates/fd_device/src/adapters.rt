ghost use Rattle.std.specs.Prelude.{◌≡◌, ◌≤◌, length, take, IfSome, IfNone};
ghost use Rattle.std.specs.Io.KnownBytes.{Keeps, Appends};
ghost use Rattle.fd_device.specs.Causes.{Rose};

use crate::{Put, Sink, Source, Taken};
use std::io::{ErrorKind, Read, Write};

/// A source over any reader. An interrupted read is tried again; any other error is a failure, of
/// which the count of faults alone tells. A caller must not read on after a failure and take what
/// comes for what follows: a reader may have lost bytes with its error.
#[derive(Drop)]
pub struct StdSource<T> {
    reader: T,
    faults: u64,
}

impl<T: Read> StdSource<T> {
    /// A source that has met no fault.
    pub fn new(reader: T) -> StdSource<T>
        ensures reader { result.reader ≡ reader }
        ensures none { result.faults ≡ 0 }
    {
        StdSource { reader, faults: 0 }
    }
}

impl<T: Read> Source for StdSource<T> {
    ghost left = { λ s. T.remaining s.reader };

    ghost faults = { λ s. s.faults };

    fn read(&mut self, piece: &mut [u8]) -> Taken {
        for _ in 0..u64::MAX {
            match self.reader.read(piece) {
                Ok(count) => return Taken::Got(count),
                Err(e) => {
                    if e.kind() != ErrorKind::Interrupted {
                        break;
                    }
                }
            }
        }
        self.faults = self.faults.saturating_add(1);
        Taken::Failed
    }
}

/// A sink over any writer. An interrupted write is tried again, and a writer that takes fewer bytes
/// is given the rest; any other error is a failure, and so is a writer that takes no more bytes. A
/// caller must not write a piece again that failed: a front of it may have been taken.
#[derive(Drop)]
pub struct StdSink<T> {
    writer: T,
    faults: u64,
}

impl<T: Write> StdSink<T> {
    /// A sink that has met no fault.
    pub fn new(writer: T) -> StdSink<T>
        ensures writer { result.writer ≡ writer }
        ensures none { result.faults ≡ 0 }
    {
        StdSink { writer, faults: 0 }
    }
}

impl<T: Write> StdSink<T> {
    fn fail(&mut self) -> Put
        ensures answer { result ≡ Put.Failed }
        ensures writer { self.new.writer ≡ self.old.writer }
        ensures rose { Rose self.old.faults self.new.faults }
    {
        self.faults = self.faults.saturating_add(1);
        Put::Failed
    }
}

/// Writes some of the bytes, one at least, or fails.
fn write_some<T: Write>(writer: &mut T, rest: &[u8]) -> Option<usize>
    ensures bound { IfSome result (λ n. n ≤ length rest.now) }
    ensures some { IfSome result (λ n.
        Appends (T.contents writer.old) (T.contents writer.new) (take n rest.now)) }
    ensures none { IfNone result (Keeps (T.contents writer.old) (T.contents writer.new)) }
{
    for _ in 0..u64::MAX {
        match writer.write(rest) {
            Ok(0) => return None,
            Ok(count) => return Some(count),
            Err(e) => {
                if e.kind() != ErrorKind::Interrupted {
                    return None;
                }
            }
        }
    }
    None
}

impl<T: Write> Sink for StdSink<T> {
    ghost taken = { λ s. T.contents s.writer };

    ghost faults = { λ s. s.faults };

    fn write(&mut self, piece: &[u8]) -> Put {
        let mut rest = piece;
        for _ in 0..u64::MAX {
            if rest.is_empty() {
                return Put::Done;
            }
            match write_some(&mut self.writer, rest) {
                Some(count) => rest = &rest[count..],
                None => return self.fail(),
            }
        }
        self.fail()
    }
}
