//! Stores of batches.
#![tactic(auto)]

mod crossing;
mod local;

pub use crossing::crossing_laws;
pub use local::Local;
