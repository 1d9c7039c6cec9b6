//! What keeps batches on a disk. `specs/Blocks` says which history files stand for: block after
//! block, each by its log. A keeper adds batches to the log of the active block, a frame at a time,
//! and begins the next block; a crash at any moment leaves the history from before and the first of
//! what a call adds. Files of seals are emptied where a block begins; no call writes one yet.
#![tactic(auto)]

mod append;
mod faults;
mod keeper;
mod laws;
mod rotation;
mod runs;
mod tail;

pub use faults::KeeperFault;
pub use keeper::Keeper;
pub use laws::{
    keeping_laws, one_damaged_place, one_recovery, recovery_laws, recovery_or_damage, settled_laws,
};
