//! Opens a store on a disk, whatever a crash left of it. `fd_keeper` says which history files stand
//! for: block after block, each by its log. What is read is put on a shelf, and a keeper goes on
//! behind it.
//!
//! ```text
//! for each block    its seal, its pages and its log are synced, and then read
//! active block      its log is cut behind its closed gate, the gate is written, each synced
//! ```
//!
//! Until the last file is synced nothing is changed, and from there on each image recovers to the
//! history that was read. Where a file is damaged, or memory is wanting, nothing is written.
#![tactic(auto)]

mod cause;
mod counting;
mod opening;
mod reading;
mod shelving;
mod tail;

pub use cause::OpenCause;
pub use counting::{Found, inspect};
pub use opening::{NotOpened, Reopened, reopen};
