ghost use Rattle.std.specs.Prelude.{◌≡◌, ◌<◌, ◌++◌, ◌∷◌, [], ℕ, List, All, length, take, None};
ghost use Rattle.std.specs.Prelude.{IfOk, OnOk, OnErr, slice_index_or};
ghost use Rattle.fd_kinds.specs.declared.row.Row.{Row};
ghost use Rattle.fd_groups.specs.Groups.{AreSums};
ghost use Rattle.fd_scan.specs.StackSlots.{KnowsSlots, known_slot, noted};
ghost use Rattle.fd_scan.specs.RowPlaces.{row_at, rows_at};

use crate::cells::{stack_at, text_column, value_at};
use fd_column::Columns;
use fd_column::places::STACK;
use fd_groups::Sums;
use fd_kinds::NoMemory;
use std::alloc::Global;

/// A table of so many entries for which nothing is known.
#[tactic(auto, using(crate::proofs::SlotTables::nothing_more))]
fn nothing_known(alloc: Global, entries: usize) -> Result<Vec<Option<usize>>, NoMemory>
    ensures { IfOk result (λ known. (entry : ℕ) → slice_index_or known.items entry None ≡ None) }
{
    let mut known = Vec::new(alloc);
    for _ in 0..entries {
        known.push(None)?;
    }
    Ok(known)
}

/// The place that is known for an entry.
fn known_slot(known: &[Option<usize>], entry: Option<usize>) -> Option<usize>
    ensures { result ≡ known_slot known.now entry }
{
    match entry {
        None => None,
        Some(entry) => {
            if entry < known.len() {
                known[entry]
            } else {
                None
            }
        }
    }
}

/// Notes the place for an entry of the table.
fn note(known: &mut Vec<Option<usize>>, entry: Option<usize>, slot: usize)
    ensures { known.new.items ≡ noted known.old.items entry slot }
{
    if let Some(entry) = entry {
        if entry < known.len() {
            known[entry] = Some(slot);
        }
    }
}

/// Adds the value of the row at a place. The stack is read where no place is known for its entry.
fn add_sum<C: Columns>(
    sums: &mut Sums,
    known: &mut Vec<Option<usize>>,
    columns: &C,
    at: usize,
) -> Result<(), NoMemory>
    requires inside { at < length (C.rows columns.now) }
    requires known { KnowsSlots (C.rows columns.now) sums.old.slots known.old.items }
    ensures known { KnowsSlots (C.rows columns.now) sums.new.slots known.new.items }
    ensures ok { OnOk result (
        (rows : List Row) → AreSums sums.old.slots sums.old.sums.items sums.old.total rows
        → AreSums sums.new.slots sums.new.sums.items sums.new.total
        (rows ++ row_at (C.rows columns.now) at ∷ [])) }
    ensures err { OnErr result (
        (rows : List Row) → AreSums sums.old.slots sums.old.sums.items sums.old.total rows
        → AreSums sums.new.slots sums.new.sums.items sums.new.total rows) }
{
    columns.short();
    let entry = text_column(columns, STACK).index(at);
    let value = value_at(columns, at);
    match known_slot(known, entry) {
        Some(slot) => sums.add_known(slot, value),
        None => {
            let stack = stack_at(columns, at)?;
            let slot = sums.add(&stack, value)?;
            note(known, entry, slot);
            Ok(())
        }
    }
}

/// Adds the values of the rows at the places. Each distinct stack of the columns is read once.
pub fn add_sums<C: Columns>(
    alloc: Global,
    sums: &mut Sums,
    columns: &C,
    places: &[usize],
) -> Result<(), NoMemory>
    requires { All (λ at. at < length (C.rows columns.now)) places.now }
    ensures ok { OnOk result (
        (rows : List Row) → AreSums sums.old.slots sums.old.sums.items sums.old.total rows
        → AreSums sums.new.slots sums.new.sums.items sums.new.total
        (rows ++ rows_at (C.rows columns.now) places.now)) }
    ensures err { OnErr result (
        (k : ℕ) × ((rows : List Row)
        → AreSums sums.old.slots sums.old.sums.items sums.old.total rows
        → AreSums sums.new.slots sums.new.sums.items sums.new.total
        (rows ++ rows_at (C.rows columns.now) (take k places.now)))) }
{
    let mut known = nothing_known(alloc, text_column(columns, STACK).entries())?;
    for at in places {
        add_sum(sums, &mut known, columns, *at)?;
    }
    Ok(())
}
