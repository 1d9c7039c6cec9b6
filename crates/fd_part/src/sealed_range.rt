ghost use Rattle.std.specs.Prelude.{◌≡◌, ◌≤◌, ◌<◌, ◌^◌, All, IfOk};
ghost use Rattle.fd_kinds.specs.Parts.{IsPart, IsWithin};
ghost use Rattle.fd_footer.specs.declared.footer.Pages.TheVariants.{Plain};
ghost use Rattle.fd_table_file.specs.Files.{IsSmall, IsFileOf};
ghost use Rattle.fd_part.specs.Ranges.{meaning_of, sealed_part};

use crate::range_file::RangeFile;
use fd_column::ColumnPart;
use fd_kinds::{Bytes, NoMemory};

/// Rows with their file, whose numbers lie in the range. That they do is known of every value, as
/// a part owes it.
#[derive(Debug, Drop)]
pub struct SealedRange {
    pub rows: RangeFile,
    ghost in_range: { IsPart (meaning_of rows) },
}

impl SealedRange {
    /// The rows of a table, whose numbers lie from `lo` to `hi`. The table is not copied.
    #[tactic(auto, using(crate::proofs::RangeLaws::sealed_part_is_part))]
    pub fn of(table: &ColumnPart, lo: u64, hi: u64) -> Result<SealedRange, NoMemory>
        requires range { lo ≤ hi }
        requires below { hi < 2 ^ 63 }
        requires within { All (IsWithin lo hi) table.now }
        requires small { IsSmall table.now }
        ensures { IfOk result (λ range. meaning_of range.rows ≡ sealed_part lo hi table.now) }
    {
        let rows = RangeFile::of(table, lo, hi)?;
        Ok(SealedRange { rows })
    }

    /// The rows with their file, neither of which is copied.
    #[tactic(auto, using(crate::proofs::RangeLaws::file_is_part))]
    pub fn with_file(
        columns: ColumnPart,
        lo: u64,
        hi: u64,
        file: Bytes,
    ) -> Result<SealedRange, NoMemory>
        requires { IsFileOf Plain file columns lo hi }
        ensures { IfOk result (λ range. meaning_of range.rows ≡ sealed_part lo hi columns) }
    {
        let rows = RangeFile::with_file(columns, lo, hi, file)?;
        Ok(SealedRange { rows })
    }

    /// The same rows and file, which cost no copy.
    pub fn share(&self) -> Result<SealedRange, NoMemory>
        ensures { IfOk result (λ copy. copy.rows ≡ self.now.rows) }
    {
        let rows = self.rows.share()?;
        Ok(SealedRange { rows })
    }
}
