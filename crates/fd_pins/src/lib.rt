//! Pins, and the limit up to which parts may be sealed. A reader pins the mark and lists parts
//! under its pin; whoever seals parts first scans all pins, and raises the floor to the least.
#![tactic(auto)]

mod limits;
mod pinning;
mod pins;
mod scanning;

pub use limits::Limit;
pub use pinning::{pin, unpin};
pub use pins::Pin;
pub use scanning::{limit, raise_floor};
