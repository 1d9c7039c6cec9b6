//! A store over a disk that nobody shares: a shelf of parts, and the log of its batches. A batch is
//! on the disk before its write is answered, so a crash at any moment leaves the history, and of a
//! write that was not answered yet its batch or not.
//!
//! ```text
//! write    takes all its memory: the part, its place on the shelf, the batch with its number
//!          ends the log where the number goes to the next block, and adds the batch to the log
//!          admits the part, and compacts the active block where it has many loose parts
//! read     answers over shares of all parts
//! ```
#![tactic(auto)]

mod laws;
mod local;
mod logging;
mod shelving;

pub use laws::moving_laws;
pub use local::Local;
