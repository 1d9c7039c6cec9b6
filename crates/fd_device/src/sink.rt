ghost use Rattle.std.specs.Prelude.{Option, List, ℕ};
ghost use Rattle.fd_device.specs.Streams.{PutsBytes, PutCause};

/// How a write went.
#[derive(Clone, Copy, Debug, PartialEq, Eq)]
pub enum Put {
    /// The whole piece was taken.
    Done,
    /// A prefix of the piece was taken, and the count of faults rose.
    Failed,
}

/// Takes bytes in order. A caller must not write a piece again that failed: a prefix of it stands.
pub trait Sink {
    /// The bytes taken, where they are told.
    ghost taken: { Self → Option (List ℕ) };

    /// How often it has failed.
    ghost faults: { Self → ℕ };

    /// Takes a piece, or answers a failure.
    fn write(&mut self, piece: &[u8]) -> Put
        ensures bytes { PutsBytes (taken self.old) (taken self.new) result piece.now }
        ensures cause { PutCause (faults self.old) (faults self.new) result };
}
