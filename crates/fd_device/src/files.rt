use std::error::Error;
use std::fmt;

/// What a file of a block holds.
#[derive(Clone, Copy, Debug, PartialEq, Eq)]
pub enum FileKind {
    /// The frames of the batches, one after another.
    Log,
    /// The Parquet file of the block's rows.
    Pages,
    /// What says that the pages stand in place of the log.
    Seal,
}

/// A file of a disk.
#[derive(Clone, Copy, Debug, PartialEq, Eq)]
pub struct FileId {
    pub kind: FileKind,
    /// The number of the block, from 0.
    pub block: u64,
}

/// The disk has failed: its count of faults rose in the call that answers this.
#[derive(Clone, Copy, Debug, PartialEq, Eq)]
pub struct DiskFault;

impl fmt::Display for DiskFault {
    fn fmt<W: fmt::Write>(&self, f: &mut fmt::Formatter<W>) -> fmt::Result {
        write!(f, "disk fault")
    }
}

impl Error for DiskFault {}
