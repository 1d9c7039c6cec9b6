ghost use Rattle.std.specs.Prelude.{◌≡◌, ◌<◌, ◌^◌, [], ◌∷◌, ◌++◌, List, IfOk, OnOk, IsSorted};
ghost use Rattle.fd_kinds.specs.declared.row.Numbered.{Numbered};
ghost use Rattle.fd_kinds.specs.Parts.{with_number};
ghost use Rattle.fd_column.specs.RowNumbers.{numbered_cmp};
ghost use Rattle.fd_column.specs.Stacks.{AreShort};

use crate::part::ColumnPart;
use crate::table::Table;
use crate::table_builder::{finished_table, new_table, push_row};
use crate::texts::row_is_utf8;
use fd_dictionary::DictionaryBuilder;
use fd_kinds::{NoMemory, Numbered, Row};
use std::alloc::Global;
use std::marker::Model;

/// Numbered rows that are put in columns one after the other, which contracts see as the list of
/// the rows so far. They are not sorted here: never give a row that comes before one that was
/// given.
#[derive(Drop)]
pub struct PartBuilder {
    table: Table<DictionaryBuilder>,
}

impl Model for PartBuilder {
    ghost use Rattle.std.specs.Prelude.{List};
    ghost use Rattle.fd_kinds.specs.declared.row.Numbered.{Numbered};
    ghost use Rattle.fd_column.specs.Tables.{rows_of_table, IsGrowing};

    ghost Value = { List Numbered };

    ghost view = { λ b. rows_of_table b.table };

    ghost invariant = { λ b. IsGrowing b.table };
}

impl PartBuilder {
    /// No rows, which take no memory.
    pub fn new(alloc: Global) -> PartBuilder
        ensures { result ≡ [] }
    {
        PartBuilder {
            table: new_table(alloc),
        }
    }

    /// The rows and one more, with its number.
    pub fn with_numbered(self, number: u64, row: &Row) -> Result<PartBuilder, NoMemory>
        requires number { number < 2 ^ 63 }
        requires short { AreShort row.now.stack }
        ensures { IfOk result (λ builder. builder ≡ self ++ with_number number (row.now ∷ [])) }
    {
        let PartBuilder { mut table } = self;
        row_is_utf8(row);
        push_row(&mut table, number, row)?;
        Ok(PartBuilder { table })
    }

    /// The rows and one more.
    pub fn with_row(self, row: &Numbered) -> Result<PartBuilder, NoMemory>
        requires number { row.now.number < 2 ^ 63 }
        requires short { AreShort row.now.row.stack }
        ensures { IfOk result (λ builder. builder ≡ self ++ row.now ∷ []) }
    {
        self.with_numbered(row.number, &row.row)
    }

    /// The part of these rows, which are in order.
    pub fn finish(self) -> Result<ColumnPart, NoMemory>
        requires { IsSorted numbered_cmp self }
        ensures { IfOk result (λ part. part ≡ self) }
    {
        let PartBuilder { table } = self;
        ColumnPart::of(finished_table(table)?)
    }
}
