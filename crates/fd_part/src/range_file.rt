ghost use Rattle.std.specs.Prelude.{◌≡◌, ◌≤◌, ◌<◌, ◌+◌, ◌^◌, take, length, All, IfOk};
ghost use Rattle.fd_kinds.specs.Parts.{IsWithin, held_bytes};
ghost use Rattle.fd_footer.specs.declared.footer.Pages.TheVariants.{Plain};
ghost use Rattle.fd_table_file.specs.Files.{IsSmall, IsFileOf};
ghost use Rattle.fd_part.specs.Ranges.{meaning_of, sealed_part};

use fd_column::{ColumnPart, Columns};
use fd_kinds::{Bytes, NoMemory, row_bytes};
use fd_parquet::write_file;
use std::alloc::Global;
use std::marker::Model;
use std::sync::Arc;

/// The rows of a range of numbers by columns, with their file and their bytes, which contracts see
/// as the rows and the range. Rows and file are shared, and never changed.
#[derive(Debug, Drop)]
pub struct RangeFile {
    lo: u64,
    hi: u64,
    columns: ColumnPart,
    bytes: u64,
    file: Arc<Bytes>,
}

impl Model for RangeFile {
    ghost use Rattle.std.specs.Arc.{arc_value};
    ghost use Rattle.fd_part.specs.Ranges.{RowRange, IsFiled};

    ghost Value = { RowRange };

    ghost view = { λ f. record { lo = f.lo; hi = f.hi; rows = f.columns } };

    ghost invariant = { λ f. IsFiled (arc_value f.file) f.columns f.lo f.hi f.bytes };
}

/// The bytes of the rows before a place and of the row there.
#[tactic(auto, using(crate::proofs::Sums::held_more))]
fn with_row(sum: u64, table: &ColumnPart, at: usize) -> Result<u64, NoMemory>
    requires inside { at < length table.now }
    requires sum { sum ≡ held_bytes (take at table.now) }
    ensures { IfOk result (λ more. more ≡ held_bytes (take (at + 1) table.now)) }
{
    let row = table.row(at)?;
    Ok(sum.saturating_add(row_bytes(&row.row)))
}

/// The bytes of the rows as the log spells them, and 2^64 - 1 where they are more.
fn sum_of(table: &ColumnPart) -> Result<u64, NoMemory>
    ensures { IfOk result (λ sum. sum ≡ held_bytes table.now) }
{
    let mut sum = 0u64;
    for at in 0..table.len() {
        sum = with_row(sum, table, at)?;
    }
    Ok(sum)
}

impl RangeFile {
    /// The rows of a table, whose numbers lie from `lo` to `hi`. The table is not copied.
    pub fn of(table: &ColumnPart, lo: u64, hi: u64) -> Result<RangeFile, NoMemory>
        requires range { lo ≤ hi }
        requires below { hi < 2 ^ 63 }
        requires within { All (IsWithin lo hi) table.now }
        requires small { IsSmall table.now }
        ensures { IfOk result (λ range. meaning_of range ≡ sealed_part lo hi table.now) }
    {
        let file = write_file(table, lo, hi)?;
        let columns = table.share()?;
        RangeFile::with_file(columns, lo, hi, file)
    }

    /// The rows with their file, neither of which is copied.
    pub fn with_file(
        columns: ColumnPart,
        lo: u64,
        hi: u64,
        file: Bytes,
    ) -> Result<RangeFile, NoMemory>
        requires { IsFileOf Plain file columns lo hi }
        ensures { IfOk result (λ range. meaning_of range ≡ sealed_part lo hi columns) }
    {
        let bytes = sum_of(&columns)?;
        let file = Arc::new(file.allocator(), file)?;
        Ok(RangeFile {
            lo,
            hi,
            columns,
            bytes,
            file,
        })
    }

    /// The least number of the range.
    pub fn lo(&self) -> u64
        ensures { result ≡ self.now.lo }
    {
        self.lo
    }

    /// The greatest number of the range.
    pub fn hi(&self) -> u64
        ensures { result ≡ self.now.hi }
    {
        self.hi
    }

    /// The columns of the numbered rows.
    pub fn columns(&self) -> &ColumnPart
        ensures { result.now ≡ self.now.rows }
    {
        &self.columns
    }

    /// The bytes of the rows as the log spells them, and 2^64 - 1 where they are more.
    pub fn bytes(&self) -> u64
        ensures { result ≡ held_bytes self.now.rows }
    {
        self.bytes
    }

    /// The bytes of the file.
    pub fn file(&self) -> &[u8]
        ensures { IsFileOf Plain result.now self.now.rows self.now.lo self.now.hi }
    {
        self.file.as_slice()
    }

    /// The allocator that the file takes its memory from.
    pub fn allocator(&self) -> Global {
        self.file.allocator()
    }

    /// The same rows and file, which cost no copy.
    pub fn share(&self) -> Result<RangeFile, NoMemory>
        ensures { IfOk result (λ copy. copy ≡ self.now) }
    {
        Ok(RangeFile {
            lo: self.lo,
            hi: self.hi,
            columns: self.columns.share()?,
            bytes: self.bytes,
            file: self.file.clone()?,
        })
    }
}
