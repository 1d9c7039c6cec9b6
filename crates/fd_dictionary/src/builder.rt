ghost use Rattle.std.specs.Prelude.{◌≡◌, [], ◌∷◌, ◌++◌, Some, None, IfOk, OnOk, replicate};
ghost use Rattle.std.specs.Option.{option_copied};

use crate::dictionary::Dictionary;
use crate::interner::Interner;
use crate::picks::Picks;
use fd_lists::NoMemory;
use std::alloc::Global;
use std::marker::Model;
use std::mem;

/// A column of texts that takes more cells at its end, which contracts see as the list of its cells
/// so far. After want of memory it has lost its cells: never go on with it.
#[derive(Drop)]
pub struct DictionaryBuilder {
    entries: Interner,
    picks: Picks,
}

impl Model for DictionaryBuilder {
    ghost use Rattle.fd_dictionary.specs.Dictionaries.{Cells, cells_of, IsDictionary};

    ghost Value = { Cells };

    ghost view = { λ b. cells_of b.entries b.picks };

    ghost invariant = { λ b. IsDictionary b.entries b.picks };
}

impl DictionaryBuilder {
    /// No cells, which take no memory.
    pub fn new(alloc: Global) -> DictionaryBuilder
        ensures { result ≡ [] }
    {
        DictionaryBuilder {
            entries: Interner::new(alloc),
            picks: Picks::new(alloc),
        }
    }

    /// A column of absent cells.
    pub fn absent(alloc: Global, count: usize) -> Result<DictionaryBuilder, NoMemory>
        ensures { IfOk result (λ builder. builder ≡ replicate count None) }
    {
        Ok(DictionaryBuilder {
            entries: Interner::new(alloc),
            picks: Picks::absent(alloc, count)?,
        })
    }

    /// The column and an absent cell.
    pub fn with_absent(self) -> Result<DictionaryBuilder, NoMemory>
        ensures { IfOk result (λ builder. builder ≡ self ++ None ∷ []) }
    {
        let DictionaryBuilder { entries, mut picks } = self;
        picks.push(0)?;
        Ok(DictionaryBuilder { entries, picks })
    }

    /// The column and one more text.
    pub fn with_text(self, text: &[u8]) -> Result<DictionaryBuilder, NoMemory>
        ensures { IfOk result (λ builder. builder ≡ self ++ Some text.now ∷ []) }
    {
        let DictionaryBuilder { entries, mut picks } = self;
        match entries.pick(text) {
            Some(pick) => {
                picks.push(pick)?;
                Ok(DictionaryBuilder { entries, picks })
            }
            None => {
                let (entries, pick) = entries.with(text)?;
                picks.push(pick)?;
                Ok(DictionaryBuilder { entries, picks })
            }
        }
    }

    /// Adds a text at the end. After want of memory the column is empty.
    pub fn push_text(&mut self, text: &[u8]) -> Result<(), NoMemory>
        ensures { OnOk result (self.new ≡ self.old ++ Some text.now ∷ []) }
    {
        let alloc = self.picks.allocator();
        let column = mem::replace(self, DictionaryBuilder::new(alloc));
        *self = column.with_text(text)?;
        Ok(())
    }

    /// The column and one more cell.
    pub fn with(self, cell: Option<&[u8]>) -> Result<DictionaryBuilder, NoMemory>
        ensures { IfOk result (λ builder. builder ≡ self ++ option_copied cell.entry ∷ []) }
    {
        match cell {
            Some(text) => self.with_text(text),
            None => self.with_absent(),
        }
    }

    /// The column as it stands. It takes no memory.
    pub fn finish(self) -> Dictionary
        ensures { result ≡ self }
    {
        let DictionaryBuilder { entries, picks } = self;
        Dictionary::of(entries.into_texts(), picks)
    }
}
