//! Two parts as one: all numbered rows of both in their order.
#![tactic(auto)]

mod cursor;
mod merger;
mod order;
mod side;

pub use merger::merge;
