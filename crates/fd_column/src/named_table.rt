ghost use Rattle.std.specs.Prelude.{◌≡◌, ◌<◌, List, Some, IfOk, IsSorted, All, length, slice_get};
ghost use Rattle.fd_kinds.specs.declared.row.Numbered.{Numbered};
ghost use Rattle.fd_column.specs.RowNumbers.{numbered_cmp, IsNumber};

use crate::cells::{dictionary_of_table, label_column_of_table, text_of_table, whole_of_table};
use crate::columns::Columns;
use crate::label_columns::have_same_cells;
use crate::names::names_of;
use crate::rows::{labels_of_table, row_of, stack_of_table};
use crate::table::Table;
use crate::texts::texts_are_utf8;
use fd_dictionary::Dictionary;
use fd_kinds::{Labels, NoMemory, Numbered, Stack, Text, Texts};
use std::alloc::Global;
use std::marker::Model;

/// The columns of numbered rows and their names, with the rows in order; contracts see them as the
/// list of the rows.
#[derive(Debug, Drop)]
pub struct NamedTable {
    names: Texts,
    table: Table<Dictionary>,
}

impl Model for NamedTable {
    ghost use Rattle.std.specs.Prelude.{List};
    ghost use Rattle.fd_kinds.specs.declared.row.Numbered.{Numbered};
    ghost use Rattle.fd_column.specs.Tables.{rows_of_table, IsPart};

    ghost Value = { List Numbered };

    ghost view = { λ p. rows_of_table p.table };

    ghost invariant = { λ p. IsPart p.names p.table };
}

impl NamedTable {
    ghost use Rattle.fd_column.specs.Tables.{rows_of_table, IsGrowing};

    /// The columns of these rows and their names.
    pub fn of(table: Table<Dictionary>) -> Result<NamedTable, NoMemory>
        requires growing { IsGrowing table }
        requires sorted { IsSorted numbered_cmp (rows_of_table table) }
        ensures { IfOk result (λ part. part ≡ rows_of_table table) }
    {
        Ok(NamedTable {
            names: names_of(&table)?,
            table,
        })
    }

    /// The allocator of the columns.
    pub fn allocator(&self) -> Global {
        self.table.numbers.allocator()
    }

    /// The row at the place `at`.
    pub fn row(&self, at: usize) -> Result<Numbered, NoMemory>
        requires { at < length self.now }
        ensures { IfOk result (λ row. slice_get self.now at ≡ Some row) }
    {
        row_of(&self.table, at)
    }

    /// The rows are in order, and their numbers below 2^63.
    pub fn in_order(&self)
        ensures sorted { IsSorted numbered_cmp self.now }
        ensures numbers { All IsNumber self.now }
    {
        let _ = &self.table;
    }
}

impl Columns for NamedTable {
    ghost rows = { λ part. part };

    fn len(&self) -> usize {
        self.table.numbers.len()
    }

    fn names(&self) -> &Texts {
        &self.names
    }

    fn text(&self, column: usize, at: usize) -> Option<&[u8]> {
        text_of_table(&self.table, column, at)
    }

    fn whole(&self, column: usize, at: usize) -> Option<i64> {
        whole_of_table(&self.table, column, at)
    }

    fn dictionary(&self, column: usize) -> Option<&Dictionary> {
        dictionary_of_table(&self.table, column)
    }

    fn label_column(&self, name: &Text) -> Option<usize> {
        label_column_of_table(&self.table, name)
    }

    fn labels(&self, at: usize) -> Result<Labels, NoMemory> {
        labels_of_table(&self.table, at)
    }

    fn same_labels(&self, a: usize, b: usize) -> bool {
        have_same_cells(self.table.labels.as_slice(), a, b)
    }

    fn stack(&self, at: usize) -> Result<Stack, NoMemory> {
        stack_of_table(&self.table, at)
    }

    fn short(&self) {
        let _ = &self.table;
    }

    fn utf8(&self) {
        texts_are_utf8(self.names.as_slice());
    }
}
