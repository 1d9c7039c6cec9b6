ghost use Rattle.std.specs.Prelude.{◌≡◌, ℕ, true, false, List, length, IfOk, ◌==◌};
ghost use Rattle.std.specs.List.{position_from};
ghost use Rattle.std.specs.Ordering.{nat_cmp};
ghost use Rattle.std.specs.BTreeMap.{get};
ghost use Rattle.fd_pprof.specs.Ids.{has_repeats, has, is_unknown, are_run};

use fd_kinds::NoMemory;
use fd_wire::Varints;
use std::alloc::Global;
use std::collections::BTreeMap;

/// The first place of each id, and whether an id stands twice.
#[derive(Drop)]
pub(crate) struct Places {
    pub map: BTreeMap<u64, usize>,
    pub repeats: bool,
}

pub(crate) fn places_of(alloc: Global, ids: &[u64]) -> Result<Places, NoMemory>
    ensures first { IfOk result (λ places. (id : ℕ)
        → get nat_cmp places.map id ≡ position_from (λ other. other == id) 0 ids.now) }
    ensures repeats { IfOk result (λ places. places.repeats ≡ has_repeats ids.now) }
{
    let mut map = BTreeMap::new(alloc);
    let mut repeats = false;
    let mut i = ids.len();
    while i > 0 {
        i -= 1;
        if map.insert(ids[i], i)?.is_some() {
            repeats = true;
        }
    }
    Ok(Places { map, repeats })
}

/// Whether the ids are 1, 2, 3 and so on.
fn are_run(ids: &[u64]) -> bool
    ensures { result ≡ are_run 1 ids.now }
{
    for (i, id) in ids.iter().enumerate() {
        if *id == 0 || *id - 1 != i as u64 {
            return false;
        }
    }
    true
}

/// Where an id stands among so many ids 1, 2, 3 and so on.
fn place_in_run(count: usize, id: u64) -> Option<usize>
    ensures { (ids : List ℕ) → length ids ≡ count → are_run 1 ids ≡ true
        → result ≡ position_from (λ other. other == id) 0 ids }
{
    if id == 0 {
        return None;
    }
    if id > count as u64 {
        return None;
    }
    Some((id - 1) as usize)
}

/// Ids, and where each stands first. Ids that run from 1 on need no map.
#[derive(Drop)]
pub(crate) struct Index {
    pub ids: Varints,
    pub runs: bool,
    pub map: BTreeMap<u64, usize>,
    pub repeats: bool,
    ghost run: { runs ≡ true → are_run 1 ids ≡ true },
    ghost first: { runs ≡ false
        → (id : ℕ) → get nat_cmp map id ≡ position_from (λ other. other == id) 0 ids },
    ghost repeated: { repeats ≡ has_repeats ids },
}

impl Index {
    #[tactic(auto, using(crate::proofs::IdRuns::run_repeats))]
    /// The index of ids that run from 1 on.
    fn of_run(alloc: Global, ids: Varints) -> Index
        requires { are_run 1 ids ≡ true }
        ensures { result.ids ≡ ids }
    {
        Index {
            ids,
            runs: true,
            map: BTreeMap::new(alloc),
            repeats: false,
        }
    }

    fn with_map(alloc: Global, ids: Varints) -> Result<Index, NoMemory>
        ensures { IfOk result (λ index. index.ids ≡ ids) }
    {
        let places = places_of(alloc, ids.as_slice())?;
        let Places { map, repeats } = places;
        Ok(Index {
            ids,
            runs: false,
            map,
            repeats,
        })
    }

    pub(crate) fn of(alloc: Global, ids: Varints) -> Result<Index, NoMemory>
        ensures { IfOk result (λ index. index.ids ≡ ids) }
    {
        if are_run(ids.as_slice()) {
            return Ok(Index::of_run(alloc, ids));
        }
        Index::with_map(alloc, ids)
    }

    /// Where the id stands first.
    pub(crate) fn place(&self, id: u64) -> Option<usize>
        ensures { result ≡ position_from (λ other. other == id) 0 self.now.ids }
    {
        if self.runs {
            return place_in_run(self.ids.len(), id);
        }
        self.map.get(&id).copied()
    }

    pub(crate) fn has(&self, id: u64) -> bool
        ensures { result ≡ has self.now.ids id }
    {
        self.place(id).is_some()
    }

    pub(crate) fn is_unknown(&self, id: u64) -> bool
        ensures { result ≡ is_unknown self.now.ids id }
    {
        id != 0 && !self.has(id)
    }
}
