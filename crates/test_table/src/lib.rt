//! Worked examples of the shared table, call by call, and two threads over one table. They stand
//! beside `fd_rule`, whose contracts alone prove them.
#![tactic(auto)]

mod endings;
mod lists;
mod pins;
mod seals;
mod seats;
mod sweeps;
#[cfg(test)]
mod tests;
mod threads;
mod writes;

pub use endings::end_both;
pub use lists::list;
pub use pins::{lift, limit, pin, report};
pub use seals::seal;
pub use seats::{Four, four_seats};
pub use sweeps::sweep;
pub use threads::write_both;
pub use writes::{begin, end, write_many, write_swept};
