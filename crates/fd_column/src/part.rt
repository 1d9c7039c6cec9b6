ghost use Rattle.std.specs.Prelude.{◌≡◌, ◌<◌, ◌^◌, Some, IfOk, IsSorted, All, length, slice_get};
ghost use Rattle.fd_kinds.specs.Parts.{with_number, rows_of};
ghost use Rattle.fd_column.specs.RowNumbers.{numbered_cmp, IsNumber};
ghost use Rattle.fd_column.specs.Stacks.{AreShort};

use crate::builder::PartBuilder;
use crate::columns::Columns;
use crate::named_table::NamedTable;
use crate::table::Table;
use fd_dictionary::Dictionary;
use fd_kinds::{Labels, NoMemory, Numbered, NumberedRows, Stack, Text, Texts};
use std::alloc::Global;
use std::marker::Model;
use std::sync::Arc;

/// Numbered rows by columns, sorted by the row order and then by number, which contracts see as
/// the list of the rows. The columns are shared without a copy, also by parts that give the rows
/// another number. The place of a column holds in this part alone: never use it in another.
#[derive(Debug, Drop)]
pub struct ColumnPart {
    given: Option<u64>,
    table: Arc<NamedTable>,
}

impl Model for ColumnPart {
    ghost use Rattle.std.specs.Prelude.{List};
    ghost use Rattle.std.specs.Arc.{arc_value};
    ghost use Rattle.fd_kinds.specs.declared.row.Numbered.{Numbered};
    ghost use Rattle.fd_column.specs.RowNumbers.{renumbered, IsGiven};

    ghost Value = { List Numbered };

    ghost view = { λ p. renumbered p.given (arc_value p.table) };

    ghost invariant = { λ p. IsGiven p.given };
}

impl ColumnPart {
    ghost use Rattle.fd_column.specs.Tables.{rows_of_table, IsGrowing};

    /// The part of the rows that these columns have.
    pub(crate) fn of(table: Table<Dictionary>) -> Result<ColumnPart, NoMemory>
        requires growing { IsGrowing table }
        requires sorted { IsSorted numbered_cmp (rows_of_table table) }
        ensures { IfOk result (λ part. part ≡ rows_of_table table) }
    {
        let named = NamedTable::of(table)?;
        let named = Arc::new(named.allocator(), named)?;
        Ok(ColumnPart {
            given: None,
            table: named,
        })
    }

    /// The part of exactly these rows.
    pub fn from_rows(alloc: Global, rows: &NumberedRows) -> Result<ColumnPart, NoMemory>
        requires sorted { IsSorted numbered_cmp rows.now }
        requires numbers { All IsNumber rows.now }
        requires short { All (λ row. AreShort row.row.stack) rows.now }
        ensures { IfOk result (λ part. part ≡ rows.now) }
    {
        let mut builder = PartBuilder::new(alloc);
        for row in rows.as_slice() {
            builder = builder.with_row(row)?;
        }
        builder.finish()
    }

    /// The same part, which costs no copy of its columns.
    pub fn share(&self) -> Result<ColumnPart, NoMemory>
        ensures { IfOk result (λ copy. copy ≡ self.now) }
    {
        let table = self.table.clone()?;
        Ok(ColumnPart {
            given: self.given,
            table,
        })
    }

    /// The part of the same rows, each with this number. It costs no copy of its columns.
    pub fn numbered(&self, number: u64) -> Result<ColumnPart, NoMemory>
        requires { number < 2 ^ 63 }
        ensures { IfOk result (λ part. part ≡ with_number number (rows_of self.now)) }
    {
        let table = self.table.clone()?;
        Ok(ColumnPart {
            given: Some(number),
            table,
        })
    }

    /// The row at the place `at`.
    pub fn row(&self, at: usize) -> Result<Numbered, NoMemory>
        requires { at < length self.now }
        ensures { IfOk result (λ row. slice_get self.now at ≡ Some row) }
    {
        let Numbered { number, row } = self.table.row(at)?;
        Ok(Numbered {
            number: self.given.unwrap_or(number),
            row,
        })
    }

    /// The rows are in order, and their numbers below 2^63.
    pub fn in_order(&self)
        ensures sorted { IsSorted numbered_cmp self.now }
        ensures numbers { All IsNumber self.now }
    {
        self.table.in_order();
    }
}

impl Columns for ColumnPart {
    ghost rows = { λ part. part };

    fn len(&self) -> usize {
        self.table.len()
    }

    fn names(&self) -> &Texts {
        self.table.names()
    }

    fn text(&self, column: usize, at: usize) -> Option<&[u8]> {
        self.table.text(column, at)
    }

    fn whole(&self, column: usize, at: usize) -> Option<i64> {
        match self.given {
            None => self.table.whole(column, at),
            Some(number) => {
                if column == 0 {
                    Some(number as i64)
                } else {
                    self.table.whole(column, at)
                }
            }
        }
    }

    fn dictionary(&self, column: usize) -> Option<&Dictionary> {
        self.table.dictionary(column)
    }

    fn label_column(&self, name: &Text) -> Option<usize> {
        self.table.label_column(name)
    }

    fn labels(&self, at: usize) -> Result<Labels, NoMemory> {
        self.table.labels(at)
    }

    fn same_labels(&self, a: usize, b: usize) -> bool {
        self.table.same_labels(a, b)
    }

    fn stack(&self, at: usize) -> Result<Stack, NoMemory> {
        self.table.stack(at)
    }

    fn short(&self) {
        self.table.short();
    }

    fn utf8(&self) {
        self.table.utf8();
    }
}
