ghost use Rattle.std.specs.Prelude.{◌≡◌, Decides, length, slice_get, unwrap_or};
ghost use Rattle.std.specs.Option.{option_copied};
ghost use Rattle.fd_dictionary.specs.Dictionaries.{cells_of, cell_in, entries_of, index_in};
ghost use Rattle.fd_dictionary.specs.Dictionaries.{IsDictionary};

use crate::picks::Picks;
use crate::pieces::Pieces;
use std::marker::Model;

/// A column of texts, which contracts see as the list of its cells: its distinct texts, and for
/// each cell which of them it is. The place of an entry means nothing outside its column: never
/// compare the places of two columns.
#[derive(Debug, Drop)]
pub struct Dictionary {
    texts: Pieces,
    picks: Picks,
}

impl Model for Dictionary {
    ghost use Rattle.fd_dictionary.specs.Dictionaries.{Cells, cells_of, IsDictionary};

    ghost Value = { Cells };

    ghost view = { λ d. cells_of d.texts d.picks };

    ghost invariant = { λ d. IsDictionary d.texts d.picks };
}

/// What stands for a cell, and 0 where there is none.
fn pick_at(picks: &Picks, at: usize) -> u64
    ensures { result ≡ unwrap_or (slice_get picks.now at) 0 }
{
    match picks.get(at) {
        Some(pick) => pick,
        None => 0,
    }
}

impl Dictionary {
    pub(crate) fn of(texts: Pieces, picks: Picks) -> Dictionary
        requires { IsDictionary texts picks }
        ensures { result ≡ cells_of texts picks }
    {
        Dictionary { texts, picks }
    }

    /// How many cells there are.
    pub fn len(&self) -> usize
        ensures { result ≡ length self.now }
    {
        self.picks.len()
    }

    /// The text of the cell at the place `at`, none where it is absent or there is no cell.
    pub fn cell(&self, at: usize) -> Option<&[u8]>
        ensures { option_copied result ≡ cell_in self.now at }
    {
        let pick = self.picks.get(at)?;
        if pick == 0 {
            None
        } else {
            self.texts.get(pick as usize - 1)
        }
    }

    /// How many distinct texts there are.
    pub fn entries(&self) -> usize
        ensures { result ≡ length (entries_of self.now) }
    {
        self.texts.len()
    }

    /// A distinct text, in the order in which they come first.
    pub fn entry(&self, at: usize) -> Option<&[u8]>
        ensures { option_copied result ≡ slice_get (entries_of self.now) at }
    {
        self.texts.get(at)
    }

    #[tactic(auto, using(crate::proofs::DictionaryPushes::index_is))]
    /// Which of the distinct texts the cell at the place `at` is, none where it is absent or there
    /// is no cell.
    pub fn index(&self, at: usize) -> Option<usize>
        ensures { result ≡ index_in self.now at }
    {
        let pick = self.picks.get(at)?;
        if pick == 0 {
            None
        } else {
            Some(pick as usize - 1)
        }
    }

    #[tactic(auto, using(crate::proofs::EqualCells::same_picks))]
    /// Whether two cells are the same: both with one text, or both absent.
    pub fn is_same(&self, a: usize, b: usize) -> bool
        ensures { Decides result (cell_in self.now a ≡ cell_in self.now b) }
    {
        pick_at(&self.picks, a) == pick_at(&self.picks, b)
    }
}
