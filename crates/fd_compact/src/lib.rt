//! Compaction of a shelf: the loose parts of its active block as one sealed part.
#![tactic(auto)]

mod compaction;
mod compactor;
mod runs;
mod tables;

pub use compaction::Compaction;
pub use compactor::{compact_full, compact_shelf};
pub use runs::{SealedRun, sealed_run};
