ghost use Rattle.std.specs.Prelude.{◌≡◌, ◌<◌, ◌^◌, [], ◌∷◌, ◌++◌, length, IfOk, IsSorted, All};
ghost use Rattle.fd_kinds.specs.History.{IsSmall};
ghost use Rattle.fd_kinds.specs.Parts.{with_number, rows_of};
ghost use Rattle.fd_kinds.specs.RowOrder.{row_cmp};
ghost use Rattle.fd_column.specs.Stacks.{AreShort};
ghost use Rattle.fd_part.specs.Sizes.{bytes_of};

use fd_column::{ColumnPart, Columns, PartBuilder};
use fd_kinds::{Batch, NoMemory, Row, row_bytes};
use std::alloc::Global;
use std::marker::Model;

/// The rows of a batch by columns, and their bytes, which contracts see as the list of the rows.
#[derive(Debug, Drop)]
pub struct BatchColumns {
    columns: ColumnPart,
    bytes: u64,
}

impl Model for BatchColumns {
    ghost use Rattle.std.specs.Prelude.{◌≡◌, List};
    ghost use Rattle.fd_kinds.specs.declared.row.Row.{Row};
    ghost use Rattle.fd_kinds.specs.Parts.{rows_of};
    ghost use Rattle.fd_part.specs.Sizes.{bytes_of};

    ghost Value = { List Row };

    ghost view = { λ c. rows_of c.columns };

    ghost invariant = { λ c. c.bytes ≡ bytes_of (rows_of c.columns) };
}

/// The bytes of the rows as the log spells them, and 2^64 - 1 where they are more.
fn sum_of(rows: &[Row]) -> u64
    ensures { result ≡ bytes_of rows.now }
{
    let mut sum = 0u64;
    for row in rows {
        sum = sum.saturating_add(row_bytes(row));
    }
    sum
}

/// The rows, each with the number 0.
fn numbered_rows(alloc: Global, rows: &[Row]) -> Result<PartBuilder, NoMemory>
    requires { All (λ row. AreShort row.stack) rows.now }
    ensures { IfOk result (λ builder. builder ≡ with_number 0 rows.now) }
{
    let mut builder = PartBuilder::new(alloc);
    for row in rows {
        builder = builder.with_numbered(0, row)?;
    }
    Ok(builder)
}

/// The columns of the rows, which are in order, with the number 0.
fn columns_of(alloc: Global, rows: &[Row]) -> Result<ColumnPart, NoMemory>
    requires sorted { IsSorted row_cmp rows.now }
    requires short { All (λ row. AreShort row.stack) rows.now }
    ensures { IfOk result (λ columns. columns ≡ with_number 0 rows.now) }
{
    let builder = numbered_rows(alloc, rows)?;
    builder.finish()
}

impl BatchColumns {
    /// The rows of the batch, which stays as it is.
    pub fn of(batch: &Batch) -> Result<BatchColumns, NoMemory>
        requires { IsSmall batch.now.rows }
        ensures { IfOk result (λ columns. columns ≡ batch.now.rows) }
    {
        let rows = batch.rows.as_slice();
        let bytes = sum_of(rows);
        let columns = columns_of(batch.rows.allocator(), rows)?;
        Ok(BatchColumns { columns, bytes })
    }

    /// How many rows there are.
    pub fn len(&self) -> usize
        ensures { result ≡ length self.now }
    {
        self.columns.len()
    }

    /// The bytes of the rows as the log spells them, and 2^64 - 1 where they are more.
    pub fn bytes(&self) -> u64
        ensures { result ≡ bytes_of self.now }
    {
        self.bytes
    }

    /// The columns; the numbers in them are no rows' own.
    pub fn columns(&self) -> &ColumnPart
        ensures { rows_of result.now ≡ self.now }
    {
        &self.columns
    }

    /// The columns of the rows with this number, which cost no copy.
    pub fn numbered(&self, number: u64) -> Result<ColumnPart, NoMemory>
        requires { number < 2 ^ 63 }
        ensures { IfOk result (λ columns. columns ≡ with_number number self.now) }
    {
        self.columns.numbered(number)
    }

    /// The same rows, which cost no copy.
    pub fn share(&self) -> Result<BatchColumns, NoMemory>
        ensures { IfOk result (λ copy. copy ≡ self.now) }
    {
        let columns = self.columns.share()?;
        Ok(BatchColumns {
            columns,
            bytes: self.bytes,
        })
    }
}
