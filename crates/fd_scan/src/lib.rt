//! Scans of rows for queries: what a query asks of the rows is gathered, and then answered.
#![tactic(auto)]

mod aggregate;
mod cells;
mod label_names;
mod label_values;
mod lookup;
mod matchers;
mod ranges;
mod selection;
mod series;
mod stacks;
mod texts;
mod types;

pub use aggregate::{Gathered, scan};
