//! What the store reads from and writes to: sources and sinks of bytes, and disks with files, in
//! memory and of the outside. A call answers a failure only where its object's count of faults rose
//! in that call.
#![tactic(auto)]

mod adapters;
mod buffers;
mod calls;
mod changes;
mod disk;
mod file_bytes;
mod files;
mod folder;
mod folder_disk;
mod mem_disk;
mod mem_file;
mod memory;
mod plain_disk;
mod recorder;
mod sink;
mod slots;
mod source;
mod synced;

pub use adapters::{StdSink, StdSource};
pub use buffers::{PlainSink, PlainSource};
pub use calls::Calls;
pub use disk::Disk;
pub use files::{DiskFault, FileId, FileKind};
pub use folder_disk::FolderDisk;
pub use mem_disk::MemDisk;
pub use memory::{MemSink, MemSource};
pub use plain_disk::PlainDisk;
pub use sink::{Put, Sink};
pub use source::{Source, Taken};
pub use synced::{cut_synced, write_synced};
