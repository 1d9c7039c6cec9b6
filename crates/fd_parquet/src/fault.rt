use fd_footer::FooterFault;
use fd_kinds::NoMemory;
use std::error::Error;
use std::fmt;

/// Why bytes are not the file of a table.
#[derive(Clone, Copy, Debug, PartialEq, Eq)]
pub enum FileFault {
    /// There are fewer than 12 bytes, or another magic at the start or at the end.
    Magic,
    /// The footer is longer than the file, or no Thrift struct with the fields of a FileMetaData.
    Footer,
    /// The columns or the key-value entries are none of this project's files.
    Schema,
    /// The first column whose bytes are not the chunk of its cells, and 0 where the count of rows
    /// is negative. The number of columns where all chunks are right, but the file is that of no
    /// table: bytes are left, the rows are out of order or out of range, or the footer is another.
    Page { column: u64 },
    NoMemory,
}

impl fmt::Display for FileFault {
    fn fmt<W: fmt::Write>(&self, f: &mut fmt::Formatter<W>) -> fmt::Result {
        match self {
            FileFault::Magic => write!(f, "no Parquet magic at both ends of the file"),
            FileFault::Footer => write!(f, "no Parquet footer in front of its length"),
            FileFault::Schema => write!(f, "the columns or entries of another program's file"),
            FileFault::Page { column } => write!(f, "no pages of its cells in column {column}"),
            FileFault::NoMemory => write!(f, "out of memory"),
        }
    }
}

impl Error for FileFault {}

impl From<NoMemory> for FileFault {
    ghost use Rattle.std.specs.Prelude.{◌≡◌};
    ghost use Rattle.fd_parquet.specs.declared.fault.FileFault.TheVariants.{NoMemory};

    ghost from_gives = { λ _ e. e ≡ NoMemory };

    fn from(_error: NoMemory) -> FileFault {
        FileFault::NoMemory
    }
}
