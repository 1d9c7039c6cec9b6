ghost use Rattle.std.specs.Prelude.{◌≡◌, List, ◌++◌, ◌∷◌, [], OnOk, OnErr, IfOk};
ghost use Rattle.fd_kinds.specs.Meaning.{distinct};

use fd_kinds::{Items, NoMemory, Share};
use std::alloc::Global;
use std::collections::BTreeSet;

/// Adds a copy of the item, where the set does not have it.
pub fn add_copy<T: Ord + Share + Drop>(set: &mut BTreeSet<T>, item: &T) -> Result<(), NoMemory>
    ensures ok { OnOk result (
        (items : List T) → set.old.keys ≡ distinct T.cmp items
        → set.new.keys ≡ distinct T.cmp (items ++ item.now ∷ [])) }
    ensures err { OnErr result (set.new.keys ≡ set.old.keys) }
{
    if !set.contains(item) {
        set.insert(item.share()?)?;
    }
    Ok(())
}

/// The items of the set, in their order.
pub fn listed<T: Ord + Drop>(alloc: Global, set: BTreeSet<T>) -> Result<Items<T>, NoMemory>
    ensures { IfOk result (λ list. list ≡ set.keys) }
{
    let mut list = Items::new(alloc);
    for item in set {
        list.push(item)?;
    }
    Ok(list)
}
