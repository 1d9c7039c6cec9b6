ghost use Rattle.std.specs.Prelude.{◌≡◌, ℕ, List, ◌++◌, take, OnOk, OnErr};
ghost use Rattle.fd_kinds.specs.declared.row.Row.{Row};
ghost use Rattle.fd_kinds.specs.Meaning.{label_values};
ghost use Rattle.fd_scan.specs.RowPlaces.{rows_at};

use crate::cells::text_column;
use crate::texts::add_texts_at;
use fd_column::Columns;
use fd_kinds::{NoMemory, Text};
use std::alloc::Global;
use std::collections::BTreeSet;

/// The distinct values of the label of one name.
#[derive(Drop)]
pub struct LabelValues {
    pub name: Text,
    pub found: BTreeSet<Text>,
}

impl LabelValues {
    /// Adds the values of the name that the rows at the places have; after a refusal those of a
    /// first part of them.
    pub fn add_places<C: Columns>(
        &mut self,
        alloc: Global,
        columns: &C,
        places: &[usize],
    ) -> Result<(), NoMemory>
        ensures name { self.new.name ≡ self.old.name }
        ensures ok { OnOk result (
            (rows : List Row) → self.old.found.keys ≡ label_values self.old.name rows
            → self.new.found.keys
            ≡ label_values self.old.name (rows ++ rows_at (C.rows columns.now) places.now)) }
        ensures err { OnErr result (
            (k : ℕ) × ((rows : List Row) → self.old.found.keys ≡ label_values self.old.name rows
            → self.new.found.keys ≡ label_values self.old.name
            (rows ++ rows_at (C.rows columns.now) (take k places.now)))) }
    {
        match columns.label_column(&self.name) {
            Some(column) => {
                columns.utf8();
                let cells = text_column(columns, column);
                add_texts_at(alloc, &mut self.found, cells, places)
            }
            None => Ok(()),
        }
    }
}
