//! A disk in memory of which contracts are told nothing, and what is on it, for tests of several
//! crates. Programs do not stand on this crate.
#![tactic(auto)]

mod disk;

pub use disk::{TestDisk, begins, holds, log_of, read_log, seal_of};
