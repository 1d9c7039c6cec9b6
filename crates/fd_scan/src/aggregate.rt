ghost use Rattle.std.specs.Prelude.{◌≡◌, ◌<◌, length, All, ℕ, List, [], ◌++◌, take};
ghost use Rattle.std.specs.Prelude.{OnOk, OnErr, IfOk};
ghost use Rattle.fd_kinds.specs.declared.row.Row.{Row};
ghost use Rattle.fd_kinds.specs.declared.query.Query.{Query};
ghost use Rattle.fd_kinds.specs.Meaning.{meaning};
ghost use Rattle.fd_kinds.specs.Parts.{rows_of};
ghost use Rattle.fd_scan.specs.RowPlaces.{rows_at};
ghost use Rattle.fd_scan.specs.Aggregates.{AreGathered, AreGroups, counted};

use crate::label_names::add_names_of;
use crate::label_values::LabelValues;
use crate::ranges::add_ranges_at;
use crate::selection::counted_places;
use crate::series::add_series_at;
use crate::stacks::add_sums;
use crate::types::add_types_at;
use fd_column::Columns;
use fd_groups::{DistinctItems, Ranges, Sums, listed, listed_ranges};
use fd_kinds::{Answer, NoMemory, ProfileType, Query, SeriesName, Share, Text};
use std::alloc::Global;
use std::collections::{BTreeMap, BTreeSet};

/// The distinct items or the sums that a query asks for, by its kind.
#[derive(Drop)]
enum Groups {
    Types(DistinctItems<ProfileType>),
    Names(BTreeSet<Text>),
    Values(LabelValues),
    Series(BTreeSet<SeriesName>),
    Range(Ranges),
    Merge(Sums),
}

/// What was gathered of rows for one query so far. The columns of one part after the other are
/// scanned into it. Never scan into it for another query than the one that it was made for: what it
/// answers then is the meaning of neither.
#[derive(Drop)]
pub struct Gathered {
    alloc: Global,
    groups: Groups,
}

impl Groups {
    fn new(alloc: Global, query: &Query) -> Result<Groups, NoMemory>
        ensures { IfOk result (λ groups. AreGroups query.now [] groups) }
    {
        Ok(match query {
            Query::Types { .. } => Groups::Types(DistinctItems::new(alloc)),
            Query::LabelNames { .. } => Groups::Names(BTreeSet::new(alloc)),
            Query::Values { name, .. } => Groups::Values(LabelValues {
                name: name.share()?,
                found: BTreeSet::new(alloc),
            }),
            Query::Series { .. } => Groups::Series(BTreeSet::new(alloc)),
            Query::Range { .. } => Groups::Range(BTreeMap::new(alloc)),
            Query::Merge { .. } => Groups::Merge(Sums::new(alloc)),
        })
    }

    /// Adds the rows at the places, which count for the query; after a refusal a first part of
    /// them.
    fn add_places<C: Columns>(
        &mut self,
        alloc: Global,
        columns: &C,
        places: &[usize],
    ) -> Result<(), NoMemory>
        requires { All (λ at. at < length (C.rows columns.now)) places.now }
        ensures ok { OnOk result (
            (query : Query) → (rows : List Row) → AreGroups query rows self.old
            → AreGroups query (rows ++ rows_at (C.rows columns.now) places.now) self.new) }
        ensures err { OnErr result (
            (k : ℕ) × ((query : Query) → (rows : List Row) → AreGroups query rows self.old
            → AreGroups query
            (rows ++ rows_at (C.rows columns.now) (take k places.now)) self.new)) }
    {
        match self {
            Groups::Types(types) => add_types_at(alloc, types, columns, places),
            Groups::Names(names) => add_names_of(alloc, names, columns, places),
            Groups::Values(values) => values.add_places(alloc, columns, places),
            Groups::Series(series) => add_series_at(alloc, series, columns, places),
            Groups::Range(ranges) => add_ranges_at(alloc, ranges, columns, places),
            Groups::Merge(sums) => add_sums(alloc, sums, columns, places),
        }
    }

    fn answer(self, alloc: Global) -> Result<Answer, NoMemory>
        ensures { IfOk result (λ answer.
            (query : Query) → (rows : List Row) → AreGroups query (counted query rows) self
            → answer ≡ meaning query rows) }
    {
        Ok(match self {
            Groups::Types(types) => Answer::Types(listed(alloc, types.into_set())?),
            Groups::Names(names) => Answer::Names(listed(alloc, names)?),
            Groups::Values(values) => {
                let LabelValues { name: _, found } = values;
                Answer::Values(listed(alloc, found)?)
            }
            Groups::Series(series) => Answer::Series(listed(alloc, series)?),
            Groups::Range(ranges) => Answer::Range(listed_ranges(alloc, ranges)?),
            Groups::Merge(sums) => {
                let (stacks, total) = sums.into_list(alloc)?;
                Answer::Merge { stacks, total }
            }
        })
    }
}

impl Gathered {
    /// No row gathered yet.
    pub fn new(alloc: Global, query: &Query) -> Result<Gathered, NoMemory>
        ensures { IfOk result (λ gathered. AreGathered query.now [] gathered) }
    {
        Ok(Gathered {
            alloc,
            groups: Groups::new(alloc, query)?,
        })
    }

    /// What the query means over the rows that were gathered.
    pub fn finish(self) -> Result<Answer, NoMemory>
        ensures { IfOk result (λ answer.
            (query : Query) → (rows : List Row) → AreGathered query rows self
            → answer ≡ meaning query rows) }
    {
        let Gathered { alloc, groups } = self;
        groups.answer(alloc)
    }
}

/// Gathers the rows of the columns, those that count for the query among them; after a refusal a
/// first part of them. The query is the one that `new` took.
pub fn scan<C: Columns>(query: &Query, columns: &C, gathered: &mut Gathered) -> Result<(), NoMemory>
    ensures ok { OnOk result (
        (before : List Row) → AreGathered query.now before gathered.old
        → AreGathered query.now (before ++ rows_of (C.rows columns.now)) gathered.new) }
    ensures err { OnErr result (
        (k : ℕ) × ((before : List Row) → AreGathered query.now before gathered.old
        → AreGathered query.now (before ++ take k (rows_of (C.rows columns.now))) gathered.new)) }
{
    let alloc = gathered.alloc;
    let places = counted_places(alloc, columns, query)?;
    gathered
        .groups
        .add_places(alloc, columns, places.as_slice())
}
