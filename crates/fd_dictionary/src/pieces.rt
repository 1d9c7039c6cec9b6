ghost use Rattle.std.specs.Prelude.{◌≡◌, ◌<◌, ◌^◌, [], ◌∷◌, ◌++◌, length, slice_get, IfOk};
ghost use Rattle.std.specs.Option.{option_copied};
ghost use Rattle.fd_dictionary.specs.Pieces.{start_of};

use fd_lists::{Bytes, Items, NoMemory};
use std::alloc::Global;
use std::marker::Model;

/// The place at which a piece starts, by the ends of the pieces.
fn start_in(ends: &[usize], at: usize) -> usize
    requires { at < length ends.now }
    ensures { result ≡ start_of ends.now at }
{
    if at == 0 { 0 } else { ends[at - 1] }
}

/// Pieces of bytes that stand one behind the other in one buffer, each with the place of its end.
#[derive(Debug, Drop)]
pub struct Pieces {
    bytes: Bytes,
    ends: Items<usize>,
}

impl Model for Pieces {
    ghost use Rattle.std.specs.Prelude.{List, ℕ};
    ghost use Rattle.fd_dictionary.specs.Pieces.{pieces_of, AreCut};

    ghost Value = { List (List ℕ) };

    ghost view = { λ p. pieces_of p.bytes p.ends };

    ghost invariant = { λ p. AreCut p.bytes p.ends };
}

impl Pieces {
    /// No pieces, which take no memory.
    pub fn new(alloc: Global) -> Pieces
        ensures { result ≡ [] }
    {
        Pieces {
            bytes: Items::new(alloc),
            ends: Items::new(alloc),
        }
    }

    /// The allocator that the pieces take their memory from.
    pub fn allocator(&self) -> Global {
        self.bytes.allocator()
    }

    #[tactic(auto, using(crate::proofs::PieceLaws::length_pieces))]
    /// How many pieces there are.
    pub fn len(&self) -> usize
        ensures count { result ≡ length self.now }
        ensures small { result < 2 ^ 63 }
    {
        self.ends.as_slice().len()
    }

    /// The piece at the place `at`, from 0.
    pub fn get(&self, at: usize) -> Option<&[u8]>
        ensures { option_copied result ≡ slice_get self.now at }
    {
        let ends = self.ends.as_slice();
        if at < ends.len() {
            Some(&self.bytes.as_slice()[start_in(ends, at)..ends[at]])
        } else {
            None
        }
    }

    /// The pieces and a copy of one more.
    pub fn with(self, piece: &[u8]) -> Result<Pieces, NoMemory>
        ensures { IfOk result (λ pieces. pieces ≡ self ++ piece.now ∷ []) }
    {
        let Pieces {
            mut bytes,
            mut ends,
        } = self;
        bytes.extend(piece)?;
        ends.push(bytes.len())?;
        Ok(Pieces { bytes, ends })
    }
}
