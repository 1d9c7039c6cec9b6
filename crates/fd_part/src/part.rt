ghost use Rattle.std.specs.Prelude.{◌≡◌, ◌≢◌, ◌≤◌, ◌<◌, ◌^◌, ◌↔◌, ℕ, true, List, [], ◌∷◌, All};
ghost use Rattle.std.specs.Prelude.{is_some, IfOk, IfErr, IfSome, IsTrue};
ghost use Rattle.fd_kinds.specs.declared.row.Numbered.{Numbered};
ghost use Rattle.fd_kinds.specs.History.{IsSmall as IsSmallBatch};
ghost use Rattle.fd_kinds.specs.Parts.{IsWithin, loose_part, rows_of};
ghost use Rattle.fd_footer.specs.declared.footer.Pages.TheVariants.{Plain};
ghost use Rattle.fd_table_file.specs.Files.{IsSmall, IsFileOf};
ghost use Rattle.fd_parquet.specs.Refusals.{Refuses, IsRefused, Finds};
ghost use Rattle.fd_parquet.specs.declared.fault.FileFault.{FileFault as AnyFault};
ghost use Rattle.fd_shelf.specs.Books.{Each, HasSmallBatches};
ghost use Rattle.fd_shelf.specs.Histories.{batch_at};
ghost use Rattle.fd_part.specs.Batches.{HasRows, Rises, rows_at};
ghost use Rattle.fd_part.specs.Parts.{part_meaning};
ghost use Rattle.fd_part.specs.Ranges.{sealed_part};

use crate::batch_columns::BatchColumns;
use crate::batch_list::batches_of;
use crate::batch_sizes::has_small_batches;
use crate::sealed_range::SealedRange;
use fd_column::{ColumnPart, Columns};
use fd_kinds::limits::MOST_BATCH_BYTES;
use fd_kinds::{Batch, Batches, Bytes, Held, NoMemory};
use fd_parquet::{FileFault, FileTable, read_file};
use fd_shelf::batch_laws;

/// How a part keeps its rows.
#[derive(Debug, Drop)]
enum Form {
    /// One batch, and its number.
    Loose { number: u64, columns: BatchColumns },
    /// The rows of a range of numbers, and their file.
    Sealed(SealedRange),
}

/// A loose part, which is one batch by columns, or a sealed one, which is the rows of a range of
/// numbers with their file. It is shared without a copy of its rows. Only a loose part may be given
/// another number, and only before others share it: each share keeps the number that it was made
/// with.
#[derive(Debug, Drop)]
pub struct Part {
    form: Form,
}

impl Part {
    /// The loose part of a batch that has no number yet. The batch stays as it is.
    pub fn of(batch: &Batch) -> Result<Part, NoMemory>
        requires { IsSmallBatch batch.now.rows }
        ensures { IfOk result (λ part. part_meaning part ≡ loose_part 0 batch.now.rows) }
    {
        let columns = BatchColumns::of(batch)?;
        Ok(Part {
            form: Form::Loose { number: 0, columns },
        })
    }

    /// The loose part of a batch that has no number yet and is let go.
    pub fn fresh(batch: Batch) -> Result<Part, NoMemory>
        requires { IsSmallBatch batch.rows }
        ensures { IfOk result (λ part. part_meaning part ≡ loose_part 0 batch.rows) }
    {
        Part::of(&batch)
    }

    /// The sealed part of a table whose numbers lie from `lo` to `hi`, with its file. The table is
    /// not copied.
    pub fn seal(table: &ColumnPart, lo: u64, hi: u64) -> Result<Part, NoMemory>
        requires range { lo ≤ hi }
        requires below { hi < 2 ^ 63 }
        requires within { All (IsWithin lo hi) table.now }
        requires small { IsSmall table.now }
        ensures { IfOk result (λ part. part_meaning part ≡ sealed_part lo hi table.now) }
    {
        let range = SealedRange::of(table, lo, hi)?;
        Ok(Part {
            form: Form::Sealed(range),
        })
    }

    /// The sealed part of the file of a table (parquet-format, `README.md`, "File format"), as
    /// `seal` makes it. The bytes are kept and not copied. Other bytes are refused: `Magic` where
    /// they have not the magic at both ends, `Footer` where no footer stands there, `Schema` where
    /// its columns or entries are none of a table's, and `Page` with the first column whose bytes
    /// are not its cells, or with the number of columns where all are and yet the file is that of
    /// no table.
    pub fn opened(file: Bytes) -> Result<Part, FileFault>
        // What is opened is sealed, and has this file.
        ensures found { IfOk result (λ part.
            ((part_meaning part).sealed ≡ true)
            × IsFileOf
            Plain
            file
            (part_meaning part).rows
            (part_meaning part).lo
            (part_meaning part).hi) }
        // Each file of a table is opened, unless memory runs out.
        ensures only { (rows : List Numbered) (lo hi : ℕ)
            → IsFileOf Plain file rows lo hi
            → Finds part_meaning result (sealed_part lo hi rows) }
        // Other bytes are refused by the one fault that is theirs, unless memory runs out.
        ensures refused { IfErr result (λ fault. fault ≢ FileFault.NoMemory → Refuses file fault) }
        ensures refused_only { (fault : AnyFault) → Refuses file fault → IsRefused fault result }
    {
        let FileTable { table, lo, hi } = match read_file(file.allocator(), file.as_slice()) {
            Ok(read) => read,
            Err(fault) => return Err(fault),
        };
        let range = SealedRange::with_file(table, lo, hi, file)?;
        Ok(Part {
            form: Form::Sealed(range),
        })
    }

    /// Whether the rows of each number have at most `MOST_BATCH_BYTES` by `fd_kinds::row_bytes`, as
    /// those of a batch do. It takes memory for the numbers that occur.
    pub fn has_small_batches(&self) -> Result<bool, NoMemory>
        ensures { IfOk result (λ small. IsTrue small ↔ HasSmallBatches (part_meaning self.now)) }
    {
        match &self.form {
            Form::Loose { columns, .. } => Ok(columns.bytes() <= MOST_BATCH_BYTES),
            Form::Sealed(range) => has_small_batches(range.rows.allocator(), range.rows.columns()),
        }
    }

    /// The batches of the numbers that have rows, in the order of the numbers; each other number
    /// has a batch without rows. It goes over the rows once.
    pub fn batches(&self) -> Result<Batches, NoMemory>
        requires { (part_meaning self.now).hi < 2 ^ 63 }
        ensures order { IfOk result (λ batches. Rises 0 batches) }
        ensures some { IfOk result (λ batches. Each HasRows batches) }
        ensures rows { IfOk result (λ batches. (number : ℕ)
            → rows_at number batches ≡ batch_at (part_meaning self.now ∷ []) number) }
    {
        let table = self.columns()?;
        let batches = batches_of(&table)?;
        batch_laws();
        Ok(batches)
    }

    /// The columns of the numbered rows, which cost no copy.
    pub fn columns(&self) -> Result<ColumnPart, NoMemory>
        requires { (part_meaning self.now).hi < 2 ^ 63 }
        ensures { IfOk result (λ columns. columns ≡ (part_meaning self.now).rows) }
    {
        match &self.form {
            Form::Loose { number, columns } => columns.numbered(*number),
            Form::Sealed(range) => range.rows.columns().share(),
        }
    }

    /// The columns of the rows, for a scan that reads no numbers. It takes no memory.
    #[tactic(auto, using(fd_kinds::proofs::PartLaws::rows_of_with_number))]
    pub fn cells(&self) -> &ColumnPart
        ensures { rows_of result.now ≡ rows_of (part_meaning self.now).rows }
    {
        match &self.form {
            Form::Loose { columns, .. } => columns.columns(),
            Form::Sealed(range) => range.rows.columns(),
        }
    }

    /// The bytes of the part's file, none for a loose part. It takes no memory.
    pub fn file(&self) -> Option<&[u8]>
        ensures sealed { is_some result ≡ (part_meaning self.now).sealed }
        ensures filed { IfSome result (λ bytes.
            IsFileOf
            Plain
            bytes.now
            (part_meaning self.now).rows
            (part_meaning self.now).lo
            (part_meaning self.now).hi) }
    {
        match &self.form {
            Form::Loose { .. } => None,
            Form::Sealed(range) => Some(range.rows.file()),
        }
    }
}

impl Held for Part {
    ghost use Rattle.fd_part.specs.Parts.{part_meaning, form_is_part};

    ghost means = { part_meaning };

    ghost sound = { λ part. form_is_part part.form };

    fn lo(&self) -> u64 {
        match &self.form {
            Form::Loose { number, .. } => *number,
            Form::Sealed(range) => range.rows.lo(),
        }
    }

    fn hi(&self) -> u64 {
        match &self.form {
            Form::Loose { number, .. } => *number,
            Form::Sealed(range) => range.rows.hi(),
        }
    }

    fn sealed(&self) -> bool {
        match &self.form {
            Form::Loose { .. } => false,
            Form::Sealed(_) => true,
        }
    }

    #[tactic(auto, using(fd_kinds::proofs::PartLaws::length_with_number))]
    fn rows(&self) -> u64 {
        match &self.form {
            Form::Loose { columns, .. } => columns.len() as u64,
            Form::Sealed(range) => range.rows.columns().len() as u64,
        }
    }

    #[tactic(auto, using(fd_kinds::proofs::PartLaws::sum_by_with_number))]
    fn bytes(&self) -> u64 {
        match &self.form {
            Form::Loose { columns, .. } => columns.bytes(),
            Form::Sealed(range) => range.rows.bytes(),
        }
    }

    fn share(&self) -> Result<Part, NoMemory> {
        let form = match &self.form {
            Form::Loose { number, columns } => Form::Loose {
                number: *number,
                columns: columns.share()?,
            },
            Form::Sealed(range) => Form::Sealed(range.share()?),
        };
        Ok(Part { form })
    }

    #[tactic(auto, using(fd_kinds::proofs::PartLaws::rows_of_with_number))]
    fn number(&mut self, number: u64) {
        match &mut self.form {
            Form::Loose { number: own, .. } => *own = number,
            Form::Sealed(_) => {}
        }
    }
}
