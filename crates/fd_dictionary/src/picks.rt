ghost use Rattle.std.specs.Prelude.{◌≡◌, [], ◌∷◌, ◌++◌, length, slice_get};
ghost use Rattle.std.specs.Prelude.{replicate, IfOk, OnOk, OnErr};

use fd_lists::{Items, NoMemory};
use std::alloc::Global;
use std::marker::Model;

/// What stands for each cell of a column: 0 where it is absent, else its entry's place from 1. A
/// number takes 32 bits, until one does not fit; that one and those behind it take 64.
#[derive(Debug, Drop)]
pub struct Picks {
    narrow: Items<u32>,
    wide: Items<u64>,
}

impl Model for Picks {
    ghost use Rattle.std.specs.Prelude.{List, ℕ, ◌++◌};

    ghost Value = { List ℕ };

    ghost view = { λ p. p.narrow ++ p.wide };
}

impl Picks {
    /// No cells, which take no memory.
    pub fn new(alloc: Global) -> Picks
        ensures { result ≡ [] }
    {
        Picks {
            narrow: Items::new(alloc),
            wide: Items::new(alloc),
        }
    }

    /// So many absent cells.
    pub fn absent(alloc: Global, count: usize) -> Result<Picks, NoMemory>
        ensures { IfOk result (λ picks. picks ≡ replicate count 0) }
    {
        Ok(Picks {
            narrow: Items::from_vec(vec![in alloc; 0u32; count]?),
            wide: Items::new(alloc),
        })
    }

    /// The allocator that the numbers take their memory from.
    pub fn allocator(&self) -> Global {
        self.narrow.allocator()
    }

    /// How many cells there are.
    pub fn len(&self) -> usize
        ensures { result ≡ length self.now }
    {
        self.narrow.as_slice().len() + self.wide.as_slice().len()
    }

    /// What stands for the cell at the place `at`, none where there is no cell.
    pub fn get(&self, at: usize) -> Option<u64>
        ensures { result ≡ slice_get self.now at }
    {
        let count = self.narrow.len();
        if at < count {
            self.narrow.get(at).map(|pick| u64::from(*pick))
        } else {
            self.wide.get(at - count).copied()
        }
    }

    /// Adds what stands for one more cell.
    pub fn push(&mut self, pick: u64) -> Result<(), NoMemory>
        ensures ok { OnOk result (self.new ≡ self.old ++ pick ∷ []) }
        ensures err { OnErr result (self.new ≡ self.old) }
    {
        if self.wide.len() == 0 {
            if let Ok(pick) = u32::try_from(pick) {
                return self.narrow.push(pick);
            }
        }
        self.wide.push(pick)
    }
}
