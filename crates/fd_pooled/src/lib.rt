//! A store that many sessions share: one seat of a pool, with the runtime that it waits by. A
//! write lands by one store into the lane of the seat and sweeps once; a query sweeps, pins the
//! mark, lists the parts up to it, and is answered from them outside of any turn.
#![tactic(auto)]

mod compaction;
mod lists;
mod pooled;
mod reads;
mod stands;
mod sweeps;
mod writes;

pub use compaction::compact_once;
pub use pooled::Pooled;
