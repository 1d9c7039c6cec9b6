ghost use Rattle.std.specs.Prelude.{◌≡◌, ◌++◌, ◌∷◌, [], List, ℕ, is_some, OnOk, OnErr, IsUtf8};
ghost use Rattle.std.specs.Option.{option_copied};
ghost use Rattle.fd_kinds.specs.declared.row.Row.{Row};
ghost use Rattle.fd_kinds.specs.Meaning.{distinct, label_names};
ghost use Rattle.fd_lists.specs.Texts.{text_cmp};
ghost use Rattle.fd_column.specs.Cells.{column_names};
ghost use Rattle.fd_dictionary.specs.Dictionaries.{cell_in};
ghost use Rattle.fd_scan.specs.LabelNames.{any_cell, column_labels, label_at, label_of};
ghost use Rattle.fd_scan.specs.LabelNames.{where_found, where_there};
ghost use Rattle.fd_scan.specs.RowPlaces.{rows_at};
ghost use Rattle.fd_scan.specs.Removals.{undone};

use crate::cells::text_column;
use fd_column::{Columns, Dictionary, text_of};
use fd_groups::distinct_laws;
use fd_kinds::{Items, NoMemory, Share, Text, Texts};
use std::alloc::Global;
use std::collections::BTreeSet;

/// Takes out the last text that was noted, and those before it.
fn take_out(texts: &mut BTreeSet<Text>, mut noted: Texts)
    ensures { texts.new.keys ≡ undone texts.old.keys noted }
{
    while let Some(text) = noted.pop() {
        texts.remove(&text);
    }
}

/// Adds a copy of the text, where the set does not have it, and notes that. After a refusal the
/// text may be noted alone.
fn add_noted(texts: &mut BTreeSet<Text>, noted: &mut Texts, text: &Text) -> Result<(), NoMemory>
    ensures ok { OnOk result (
        (items : List (List ℕ)) → texts.old.keys ≡ distinct text_cmp items
        → texts.new.keys ≡ distinct text_cmp (items ++ text.now ∷ [])) }
    ensures undone { undone texts.new.keys noted.new ≡ undone texts.old.keys noted.old }
{
    if !texts.contains(text) {
        noted.push(text.share()?)?;
        texts.insert(text.share()?)?;
    }
    Ok(())
}

/// The label of which a column has the values, by the column's name.
fn label_of(column: &[u8]) -> Option<&[u8]>
    ensures { option_copied result ≡ label_of column.now }
{
    column.strip_prefix(b"labels.")
}

/// Whether a cell is there.
fn is_there(cells: &Dictionary, at: usize) -> bool
    ensures { result ≡ is_some (cell_in cells.now at) }
{
    cells.cell(at).is_some()
}

/// Whether one of the cells at the places is there.
fn any_cell(cells: &Dictionary, places: &[usize]) -> bool
    ensures { result ≡ any_cell cells.now places.now }
{
    for at in places {
        if is_there(cells, *at) {
            return true;
        }
    }
    false
}

/// The label of which the column at a place has the values; none where the column is of another
/// kind.
fn label_at<C: Columns>(columns: &C, column: usize) -> Option<&[u8]>
    ensures { option_copied result ≡ label_at (column_names (C.rows columns.now)) column }
{
    match columns.names().get(column) {
        Some(name) => label_of(name.as_bytes()),
        None => None,
    }
}

/// Adds a copy of the name, where one of the cells at the places is there.
fn add_where_there(
    names: &mut BTreeSet<Text>,
    noted: &mut Texts,
    cells: &Dictionary,
    places: &[usize],
    name: &[u8],
) -> Result<(), NoMemory>
    requires { IsUtf8 name.now }
    ensures ok { OnOk result (
        (items : List (List ℕ)) → names.old.keys ≡ distinct text_cmp items
        → names.new.keys ≡ distinct text_cmp (items ++ where_there cells.now places.now name.now)) }
    ensures undone { undone names.new.keys noted.new ≡ undone names.old.keys noted.old }
{
    if any_cell(cells, places) {
        let text = text_of(noted.allocator(), name)?;
        return add_noted(names, noted, &text);
    }
    Ok(())
}

/// Adds the label of the column at a place, where one of the rows at the places has it.
#[tactic(auto, using(crate::proofs::LabelColumns::label_texts))]
fn add_column_label<C: Columns>(
    names: &mut BTreeSet<Text>,
    noted: &mut Texts,
    columns: &C,
    places: &[usize],
    column: usize,
) -> Result<(), NoMemory>
    ensures ok { OnOk result (
        (items : List (List ℕ)) → names.old.keys ≡ distinct text_cmp items
        → names.new.keys ≡ distinct text_cmp (items ++ where_found (C.rows columns.now) places.now
        (label_at (column_names (C.rows columns.now)) column))) }
    ensures undone { undone names.new.keys noted.new ≡ undone names.old.keys noted.old }
{
    match label_at(columns, column) {
        Some(name) => {
            columns.utf8();
            let cells = text_column(columns, column);
            add_where_there(names, noted, cells, places, name)
        }
        None => Ok(()),
    }
}

/// Adds the labels of the columns that rows at the places have, and notes those that are new.
fn add_column_labels<C: Columns>(
    names: &mut BTreeSet<Text>,
    noted: &mut Texts,
    columns: &C,
    places: &[usize],
) -> Result<(), NoMemory>
    ensures ok { OnOk result (
        (items : List (List ℕ)) → names.old.keys ≡ distinct text_cmp items
        → names.new.keys ≡ distinct text_cmp (items ++ column_labels (C.rows columns.now) places.now
        (column_names (C.rows columns.now)))) }
    ensures undone { undone names.new.keys noted.new ≡ undone names.old.keys noted.old }
{
    for column in 0..columns.names().len() {
        add_column_label(names, noted, columns, places, column)?;
    }
    Ok(())
}

/// Adds the names of the labels of the rows at the places: all of them, or none where memory is
/// wanting. Of a column of labels no more cells are read than to the first that is there, and its
/// name is copied only where there is one.
pub fn add_names_of<C: Columns>(
    alloc: Global,
    names: &mut BTreeSet<Text>,
    columns: &C,
    places: &[usize],
) -> Result<(), NoMemory>
    ensures ok { OnOk result (
        (rows : List Row) → names.old.keys ≡ label_names rows
        → names.new.keys ≡ label_names (rows ++ rows_at (C.rows columns.now) places.now)) }
    ensures err { OnErr result (names.new.keys ≡ names.old.keys) }
{
    distinct_laws::<Text>();
    let mut noted = Items::new(alloc);
    match add_column_labels(names, &mut noted, columns, places) {
        Ok(()) => Ok(()),
        Err(refusal) => {
            take_out(names, noted);
            Err(refusal)
        }
    }
}
