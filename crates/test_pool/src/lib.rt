//! Worked examples of a pool, call by call, and two threads over one. They stand beside `fd_pool`,
//! whose contracts alone prove them.
#![tactic(auto)]

mod lists;
mod pools;
mod runs;
#[cfg(test)]
mod tests;
mod threads;
mod writes;

pub use lists::{list_last, pin_mark, read_one, unpin_mark};
pub use pools::{finish, open, put_back, sit, stand, take};
pub use runs::{compact_one, limit_of};
pub use threads::{compact_beside, write_both};
pub use writes::{begin, end, report, sweep, write_one, write_swept};
