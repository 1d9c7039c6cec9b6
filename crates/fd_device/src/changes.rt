use crate::FileId;
use fd_lists::Bytes;

/// What was done to a file of a disk in memory.
#[derive(Drop)]
pub enum Change {
    /// The bytes were written at the place.
    Write(FileId, u64, Bytes),
    /// The file was cut to the length.
    Cut(FileId, u64),
    /// The file was synced.
    Sync(FileId),
}
