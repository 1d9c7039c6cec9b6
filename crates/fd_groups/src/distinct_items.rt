ghost use Rattle.std.specs.Prelude.{◌≡◌, List, ◌++◌, ◌∷◌, [], OnOk, OnErr, None};
ghost use Rattle.std.specs.Option.{option_copied};
ghost use Rattle.fd_groups.specs.DistinctItems.{AreDistinct};

use fd_kinds::NoMemory;
use std::alloc::Global;
use std::collections::BTreeSet;

/// Distinct items, and a copy of the one that was added last: of rows that stand together with
/// equal items only the first has its item copied.
#[derive(Drop)]
pub struct DistinctItems<T: Ord> {
    pub found: BTreeSet<T>,
    pub last: Option<T>,
}

impl<T: Ord + Drop> DistinctItems<T> {
    pub fn new(alloc: Global) -> DistinctItems<T>
        ensures { AreDistinct T.cmp result.found.keys result.last [] }
    {
        DistinctItems {
            found: BTreeSet::new(alloc),
            last: None,
        }
    }

    /// Adds the item, of which `copy` is one.
    pub fn add(&mut self, item: T, copy: T) -> Result<(), NoMemory>
        requires { copy ≡ item }
        ensures ok { OnOk result (
            (items : List T) → AreDistinct T.cmp self.old.found.keys self.old.last items
            → AreDistinct T.cmp self.new.found.keys self.new.last (items ++ item ∷ [])) }
        ensures err { OnErr result (
            (items : List T) → AreDistinct T.cmp self.old.found.keys self.old.last items
            → AreDistinct T.cmp self.new.found.keys self.new.last items) }
    {
        self.found.insert(item)?;
        self.last = Some(copy);
        Ok(())
    }

    /// The items alone.
    pub fn into_set(self) -> BTreeSet<T>
        ensures { result.keys ≡ self.found.keys }
    {
        let DistinctItems { found, last: _ } = self;
        found
    }
}
