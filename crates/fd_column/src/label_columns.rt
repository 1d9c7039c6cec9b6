ghost use Rattle.std.specs.Prelude.{◌≡◌, ◌<◌, ◌≤◌, ℕ, MatchOption, IfOk, All, Decides, length, map};
ghost use Rattle.std.specs.Prelude.{IfSome, IsUtf8};
ghost use Rattle.std.specs.Prelude.{insert, IsTrue, [], ◌∷◌, ◌++◌};
ghost use Rattle.std.specs.Option.{option_copied};
ghost use Rattle.std.specs.List.{filter_map};
ghost use Rattle.fd_kinds.specs.Labels.{are_labels};
ghost use Rattle.fd_kinds.specs.LabelMaps.{value_of};
ghost use Rattle.fd_dictionary.specs.Dictionaries.{cell_in};
ghost use Rattle.fd_column.specs.LabelColumns.{add_column, add_columns, blank, with_value, pair_at};
ghost use Rattle.fd_column.specs.LabelColumns.{pairs_at, labels_from};

use crate::stacks::text_of;
use crate::table::LabelColumn;
use fd_dictionary::{Dictionary, DictionaryBuilder};
use fd_kinds::{Items, Labels, NoMemory, Pair, Share, Shared, Text};
use std::alloc::Global;
use std::cmp::Ordering;

/// The place at which a column of this name is missing, none where there is one.
fn place_for(columns: &[LabelColumn<DictionaryBuilder>], name: &Text) -> Option<usize>
    ensures { MatchOption result
        ((count : ℕ) → add_column count columns.now name.now ≡ columns.now)
        (λ place. (place ≤ length columns.now)
        × ((count : ℕ) → add_column count columns.now name.now
        ≡ insert columns.now place (blank count name.now))) }
{
    let mut place = 0;
    for column in columns {
        match name.cmp(&column.name) {
            Ordering::Less => return Some(place),
            Ordering::Equal => return None,
            Ordering::Greater => place += 1,
        }
    }
    Some(place)
}

/// The columns and one of this name, with so many absent cells where it is new.
fn with_column(
    columns: Items<LabelColumn<DictionaryBuilder>>,
    name: &Text,
    count: usize,
) -> Result<Items<LabelColumn<DictionaryBuilder>>, NoMemory>
    ensures { IfOk result (λ more. more ≡ add_column count columns name.now) }
{
    let mut columns = columns.into_vec();
    if let Some(place) = place_for(columns.as_slice(), name) {
        let name = name.share()?;
        let cells = DictionaryBuilder::absent(name.allocator(), count)?;
        columns.insert(place, LabelColumn { name, cells })?;
    }
    Ok(Items::from_vec(columns))
}

/// The columns and one for each name of the pairs.
fn with_columns(
    columns: Items<LabelColumn<DictionaryBuilder>>,
    pairs: &[Pair],
    count: usize,
) -> Result<Items<LabelColumn<DictionaryBuilder>>, NoMemory>
    ensures { IfOk result (λ more. more ≡ add_columns count columns pairs.now) }
{
    let mut more = columns;
    for pair in pairs {
        more = with_column(more, &pair.name, count)?;
    }
    Ok(more)
}

/// The value of a name among the pairs.
fn value_in<'a>(pairs: &'a [Pair], name: &Text) -> Option<&'a [u8]>
    ensures { option_copied result ≡ value_of pairs.now name.now }
{
    for pair in pairs {
        if name.cmp(&pair.name).is_eq() {
            return Some(pair.value.as_bytes());
        }
    }
    None
}

/// Each column and the value of its name.
fn with_values(
    columns: Items<LabelColumn<DictionaryBuilder>>,
    pairs: &[Pair],
) -> Result<Items<LabelColumn<DictionaryBuilder>>, NoMemory>
    ensures { IfOk result (λ more. more ≡ map (with_value pairs.now) columns) }
{
    let mut more = Items::new(columns.allocator());
    more.reserve(columns.len())?;
    for column in columns.into_vec() {
        let LabelColumn { name, cells } = column;
        let cells = cells.with(value_in(pairs, &name))?;
        more.push(LabelColumn { name, cells })?;
    }
    Ok(more)
}

/// The columns of so many rows and of one more, which has these pairs.
pub fn with_labels(
    columns: Items<LabelColumn<DictionaryBuilder>>,
    pairs: &[Pair],
    count: usize,
) -> Result<Items<LabelColumn<DictionaryBuilder>>, NoMemory>
    ensures { IfOk result (λ more.
        more ≡ map (with_value pairs.now) (add_columns count columns pairs.now)) }
{
    with_values(with_columns(columns, pairs, count)?, pairs)
}

/// The columns as they stand.
pub fn finished(
    columns: Items<LabelColumn<DictionaryBuilder>>,
) -> Result<Items<LabelColumn<Dictionary>>, NoMemory>
    ensures { IfOk result (λ done. done ≡ columns) }
{
    let mut done = Items::new(columns.allocator());
    done.reserve(columns.len())?;
    for column in columns.into_vec() {
        let LabelColumn { name, cells } = column;
        done.push(LabelColumn {
            name,
            cells: cells.finish(),
        })?;
    }
    Ok(done)
}

/// The pairs and the one that the column has at a place, where its cell is not absent.
fn with_pair(
    pairs: Items<Pair>,
    column: &LabelColumn<Dictionary>,
    at: usize,
) -> Result<Items<Pair>, NoMemory>
    requires { IfSome (cell_in column.now.cells at) IsUtf8 }
    ensures { IfOk result (λ more. more ≡ pairs ++ filter_map (pair_at at) (column.now ∷ [])) }
{
    let mut more = pairs;
    if let Some(value) = column.cells.cell(at) {
        let name = column.name.share()?;
        let value = text_of(name.allocator(), value)?;
        more.push(Pair { name, value })?;
    }
    Ok(more)
}

#[tactic(auto, using(std::proofs::lemmas::Grind::common_steps, crate::proofs::LabelColumns::pairs_more))]
/// The labels that the columns have at a place.
pub fn labels_at(
    alloc: Global,
    columns: &Items<LabelColumn<Dictionary>>,
    at: usize,
) -> Result<Labels, NoMemory>
    requires labels { IsTrue (are_labels (pairs_at columns.now at)) }
    requires texts { All (λ c. IfSome (cell_in c.cells at) IsUtf8) columns.now }
    ensures { IfOk result (λ labels. labels ≡ labels_from (pairs_at columns.now at)) }
{
    let mut pairs = Items::new(alloc);
    for column in columns.as_slice() {
        pairs = with_pair(pairs, column, at)?;
    }
    Ok(Labels {
        pairs: Shared::of(pairs)?,
    })
}

/// Whether each column has the same cell at two places.
pub fn have_same_cells(columns: &[LabelColumn<Dictionary>], a: usize, b: usize) -> bool
    ensures { Decides result (All (λ c. cell_in c.cells a ≡ cell_in c.cells b) columns.now) }
{
    for column in columns {
        if !column.cells.is_same(a, b) {
            return false;
        }
    }
    true
}
