//! Worked examples of a store that many sessions share. They stand beside `fd_pooled`, whose
//! contracts alone prove them.
#![tactic(auto)]

mod pools;
mod seats;
mod stores;
#[cfg(test)]
mod tests;
mod threads;

pub use pools::{finish, open, open_over, put_back, take};
pub use seats::{begin, compact, end, list_last, pin_mark, sit, stand, sweep, unpin_mark};
pub use stores::{close, open_store, read_total, stand_at, write_many, write_one};
pub use threads::write_and_read;
