//! Whole calls of a seat at the shared table. A writer draws a number, lands its part in its lane,
//! and sweeps if it can; a reader lists the parts up to its pin; whoever compacts puts one sealed
//! part in place of others. Each call takes the turn for itself and gives it back.
#![tactic(auto)]

mod endings;
mod lanes;
mod lists;
mod loads;
mod pool;
mod replacements;
mod room;
mod starts;
mod sweeps;
mod turns;
mod writes;

pub use endings::NotFinished;
pub use lanes::ready;
pub use lists::{list, run_upto};
pub use loads::{announce, drawn, synced, watermark};
pub use pool::{NotStarted, Passes, Pool, Started};
pub use replacements::swap;
pub use sweeps::{Sweep, try_sweep};
pub use writes::{Receipt, Spent, draw_and_land};
