ghost use Rattle.std.specs.Prelude.{◌≡◌, ◌+◌, [], ◌∷◌, ◌++◌, None, length, IfOk};
ghost use Rattle.fd_dictionary.specs.Dictionaries.{pick_in};

use crate::pieces::Pieces;
use fd_lists::NoMemory;
use std::alloc::Global;
use std::collections::BTreeMap;
use std::marker::Model;

/// Distinct texts in the order in which they came, and for each what stands for it in a column.
/// Never add a text that is there: ask for its `pick` first.
#[derive(Drop)]
pub struct Interner {
    texts: Pieces,
    picks: BTreeMap<Vec<u8>, u64>,
}

impl Model for Interner {
    ghost use Rattle.std.specs.Prelude.{List, ℕ};
    ghost use Rattle.fd_dictionary.specs.Dictionaries.{KnowsPicks};

    ghost Value = { List (List ℕ) };

    ghost view = { λ i. i.texts };

    ghost invariant = { λ i. KnowsPicks i.picks i.texts };
}

impl Interner {
    /// No texts, which take no memory.
    pub fn new(alloc: Global) -> Interner
        ensures { result ≡ [] }
    {
        Interner {
            texts: Pieces::new(alloc),
            picks: BTreeMap::new(alloc),
        }
    }

    /// What stands for the text, none where it is no entry.
    pub fn pick(&self, text: &[u8]) -> Option<u64>
        ensures { result ≡ pick_in self.now text.now }
    {
        self.picks.get(text).copied()
    }

    /// The entries and a text that is none of them, with what stands for it.
    pub fn with(self, text: &[u8]) -> Result<(Interner, u64), NoMemory>
        requires { pick_in self text.now ≡ None }
        ensures entries { IfOk result (λ r. r.0 ≡ self ++ text.now ∷ []) }
        ensures pick { IfOk result (λ r. r.1 ≡ length self + 1) }
    {
        let Interner { texts, mut picks } = self;
        let pick = texts.len() as u64 + 1;
        let texts = texts.with(text)?;
        let key = Vec::from_slice(texts.allocator(), text)?;
        picks.insert(key, pick)?;
        Ok((Interner { texts, picks }, pick))
    }

    /// The texts alone. It takes no memory.
    pub fn into_texts(self) -> Pieces
        ensures { result ≡ self }
    {
        let Interner { texts, picks: _ } = self;
        texts
    }
}
