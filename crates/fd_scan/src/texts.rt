ghost use Rattle.std.specs.Prelude.{◌≡◌, ◌++◌, ℕ, List, false, take, slice_index_or};
ghost use Rattle.std.specs.Prelude.{IfOk, IfSome, OnOk, OnErr, IsUtf8};
ghost use Rattle.fd_dictionary.specs.Dictionaries.{cell_in};
ghost use Rattle.fd_kinds.specs.Meaning.{distinct};
ghost use Rattle.fd_lists.specs.Texts.{text_cmp};
ghost use Rattle.fd_scan.specs.DistinctTexts.{SeesTexts, is_seen, seen_more, text_at, texts_at};

use fd_column::{Dictionary, text_of};
use fd_groups::add_copy;
use fd_kinds::{NoMemory, Text};
use std::alloc::Global;
use std::collections::BTreeSet;

/// A table of so many entries of which none is known.
#[tactic(auto, using(crate::proofs::TextTables::unseen_more))]
fn none_seen(alloc: Global, entries: usize) -> Result<Vec<bool>, NoMemory>
    ensures { IfOk result (λ seen. (entry : ℕ) → slice_index_or seen.items entry false ≡ false) }
{
    let mut seen = Vec::new(alloc);
    for _ in 0..entries {
        seen.push(false)?;
    }
    Ok(seen)
}

/// Whether the entry is known.
fn is_seen(seen: &[bool], entry: Option<usize>) -> bool
    ensures { result ≡ is_seen seen.now entry }
{
    match entry {
        None => false,
        Some(entry) => {
            if entry < seen.len() {
                seen[entry]
            } else {
                false
            }
        }
    }
}

/// Notes the entry of the table.
fn see(seen: &mut Vec<bool>, entry: Option<usize>)
    ensures { seen.new.items ≡ seen_more seen.old.items entry }
{
    if let Some(entry) = entry {
        if entry < seen.len() {
            seen[entry] = true;
        }
    }
}

/// Adds a copy of the text of a cell, where it has one that the set does not have.
fn add_cell(
    alloc: Global,
    found: &mut BTreeSet<Text>,
    cells: &Dictionary,
    at: usize,
) -> Result<(), NoMemory>
    requires { IfSome (cell_in cells.now at) IsUtf8 }
    ensures ok { OnOk result (
        (items : List (List ℕ)) → found.old.keys ≡ distinct text_cmp items
        → found.new.keys ≡ distinct text_cmp (items ++ text_at cells.now at)) }
    ensures err { OnErr result (found.new.keys ≡ found.old.keys) }
{
    match cells.cell(at) {
        Some(bytes) => add_copy(found, &text_of(alloc, bytes)?),
        None => Ok(()),
    }
}

/// Adds the text of a cell, and notes its entry. The text of a known entry is not read.
fn add_once(
    alloc: Global,
    found: &mut BTreeSet<Text>,
    seen: &mut Vec<bool>,
    cells: &Dictionary,
    at: usize,
) -> Result<(), NoMemory>
    requires { IfSome (cell_in cells.now at) IsUtf8 }
    ensures ok { OnOk result (
        (items : List (List ℕ)) → SeesTexts cells.now found.old.keys seen.old.items items
        → SeesTexts cells.now found.new.keys seen.new.items (items ++ text_at cells.now at)) }
    ensures err { OnErr result (found.new.keys ≡ found.old.keys) }
{
    let entry = cells.index(at);
    if is_seen(seen, entry) {
        return Ok(());
    }
    add_cell(alloc, found, cells, at)?;
    see(seen, entry);
    Ok(())
}

/// Adds the texts of the cells at the places; after a refusal those of a first part of them. Each
/// distinct text of the column is read once.
pub fn add_texts_at(
    alloc: Global,
    found: &mut BTreeSet<Text>,
    cells: &Dictionary,
    places: &[usize],
) -> Result<(), NoMemory>
    requires { (at : ℕ) → IfSome (cell_in cells.now at) IsUtf8 }
    ensures ok { OnOk result (
        (items : List (List ℕ)) → found.old.keys ≡ distinct text_cmp items
        → found.new.keys ≡ distinct text_cmp (items ++ texts_at cells.now places.now)) }
    ensures err { OnErr result (
        (k : ℕ) × ((items : List (List ℕ)) → found.old.keys ≡ distinct text_cmp items
        → found.new.keys ≡ distinct text_cmp (items ++ texts_at cells.now (take k places.now)))) }
{
    let mut seen = none_seen(alloc, cells.entries())?;
    for at in places {
        add_once(alloc, found, &mut seen, cells, *at)?;
    }
    Ok(())
}
