ghost use Rattle.std.specs.Prelude.{Option, List, ℕ, ◌<◌, ◌≡◌, length, min, take};
ghost use Rattle.fd_device.specs.Streams.{FitsPiece, TakesBytes, TakenCause};

/// What a read gave.
#[derive(Clone, Copy, Debug, PartialEq, Eq)]
pub enum Taken {
    /// So many bytes stand at the front of the piece; 0 is the end of the input.
    Got(usize),
    /// Nothing was given, and the count of faults rose.
    Failed,
}

/// Gives bytes in order. A caller must not read again after the end: what a reader gives then is
/// not told.
pub trait Source {
    /// The bytes left, where they are told.
    ghost left: { Self → Option (List ℕ) };

    /// How often it has failed.
    ghost faults: { Self → ℕ };

    /// Fills the front of a piece, which is not empty.
    fn read(&mut self, piece: &mut [u8]) -> Taken
        requires { 0 < length piece.old }
        ensures bound { FitsPiece result piece.new }
        ensures bytes { TakesBytes (left self.old) (left self.new) result piece.new }
        ensures cause { TakenCause (faults self.old) (faults self.new) result };
}

/// Copies what fits.
pub(crate) fn copy_front(from: &[u8], to: &mut [u8]) -> usize
    ensures count { result ≡ min (length from.now) (length to.old) }
    ensures copied { take result to.new ≡ take result from.now }
{
    let count = from.len().min(to.len());
    to[..count].copy_from_slice(&from[..count]);
    count
}
