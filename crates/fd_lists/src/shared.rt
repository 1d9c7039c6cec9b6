ghost use Rattle.std.specs.Prelude.{◌≡◌, [], length, slice_get, IfOk};
ghost use Rattle.std.specs.Option.{option_copied};
ghost use Rattle.std.specs.List.{AllZip};
ghost use Rattle.std.specs.Cmp.Lexicographic.{pointwise, slice_cmp, slice_partial_cmp, lists_per};
ghost use Rattle.std.specs.Cmp.Lexicographic.{lists_equiv, lists_po, lists_total, lists_agrees};
ghost use Rattle.std.specs.Cmp.Lexicographic.{lists_ties};

use crate::{Items, NoMemory};
use std::alloc::{AllocError, Global};
use std::cmp::Ordering;
use std::marker::Model;
use std::sync::Arc;

/// A list that does not change, which contracts see as the list of its items. Copies share the
/// items.
#[derive(Debug)]
pub struct Shared<T> {
    /// None where there is no item.
    items: Option<Arc<Items<T>>>,
    alloc: Global,
}

/// Written by hand, so that who lets go of a list proves one call and not the cases inside it.
impl<T: Drop> Drop for Shared<T> {
    fn drop(self) {
        let Shared { items: _, alloc: _ } = self;
    }
}

impl<T> Model for Shared<T> {
    ghost use Rattle.std.specs.Prelude.{List, [], option_map, unwrap_or};
    ghost use Rattle.std.specs.Coded.{coded_list};
    ghost use Rattle.std.specs.Arc.{arc_value};

    ghost Value = { List T };

    ghost coded = { coded_list T.code };

    ghost view = { λ s. unwrap_or (option_map (λ shared. arc_value shared) s.items) [] };
}

impl<T> Shared<T> {
    /// The empty list, which takes no memory.
    pub fn new(alloc: Global) -> Shared<T>
        ensures { result ≡ [] }
    {
        Shared { items: None, alloc }
    }

    /// The items, in order.
    pub fn as_slice(&self) -> &[T]
        ensures { result.now ≡ self.now }
    {
        match &self.items {
            None => &[],
            Some(items) => items.as_slice(),
        }
    }

    /// The allocator that the list takes its memory from.
    pub fn allocator(&self) -> Global {
        self.alloc
    }

    /// How many items there are.
    pub fn len(&self) -> usize
        ensures { result ≡ length self.now }
    {
        match &self.items {
            None => 0,
            Some(items) => items.len(),
        }
    }

    /// The item at the place `at`, from 0.
    pub fn get(&self, at: usize) -> Option<&T>
        ensures { option_copied result ≡ slice_get self.now at }
    {
        match &self.items {
            None => None,
            Some(items) => items.get(at),
        }
    }

    /// The same list, which costs no copy of its items.
    pub fn another(&self) -> Result<Shared<T>, AllocError>
        ensures { IfOk result (λ copy. copy ≡ self.now) }
    {
        let items = match &self.items {
            None => None,
            Some(items) => Some(Arc::try_clone(items)?),
        };
        Ok(Shared {
            items,
            alloc: self.alloc,
        })
    }
}

impl<T: Drop> Shared<T> {
    /// The list of these items, which are not copied. The empty list takes no memory.
    pub fn of(items: Items<T>) -> Result<Shared<T>, NoMemory>
        ensures { IfOk result (λ list. list ≡ items) }
    {
        let alloc = items.allocator();
        if items.len() == 0 {
            return Ok(Shared::new(alloc));
        }
        Ok(Shared {
            items: Some(Arc::new(alloc, items)?),
            alloc,
        })
    }
}

impl<T: PartialEq> PartialEq for Shared<T> {
    ghost eq = { pointwise T.eq };

    ghost laws = { lists_per T.PartialEq.laws };

    fn eq(&self, other: &Shared<T>) -> bool {
        self.as_slice() == other.as_slice()
    }
}

impl<T: Eq> Eq for Shared<T> {
    ghost laws = { lists_equiv T.Eq.laws };
}

impl<T: PartialOrd> PartialOrd for Shared<T> {
    ghost partial_cmp = { slice_partial_cmp T.partial_cmp };

    ghost laws = { lists_po T.PartialOrd.laws };

    fn partial_cmp(&self, other: &Shared<T>) -> Option<Ordering> {
        self.as_slice().partial_cmp(other.as_slice())
    }
}

impl<T: Ord> Ord for Shared<T> {
    ghost cmp = { slice_cmp T.cmp };

    ghost total = { lists_total T.Ord.total };

    ghost matches_partial_cmp = { lists_agrees T.matches_partial_cmp };

    ghost matches_eq = { lists_ties T.cmp T.matches_eq };

    fn cmp(&self, other: &Shared<T>) -> Ordering {
        self.as_slice().cmp(other.as_slice())
    }
}
