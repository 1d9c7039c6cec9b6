//! Rows in groups: distinct items, and the sums of values by stack, or by labels and time. It knows
//! rows, and no columns.
#![tactic(auto)]

mod distinct_items;
mod laws;
mod ranges;
mod sets;
mod sums;

pub use distinct_items::DistinctItems;
pub use laws::distinct_laws;
pub use ranges::{Ranges, add_to_range, listed_ranges};
pub use sets::{add_copy, listed};
pub use sums::Sums;
