//! The rows of a write body: one batch, or the first fault of the body.
//!
//!     body     series, series, ..
//!     series   labels, of which `__name__` is the name, and profiles
//!     row      name | sample type and unit | period type and unit | labels | timestamp
//!              | stack | labels of the sample | period | duration | value
//!
//! A profile gives a row for each value other than 0 of each of its samples.
#![tactic(auto)]

mod body;
mod bounded_rows;
mod checks;
mod faults;
mod laws;
mod limits;
mod profiles;
mod rows;
mod series;
mod sized_series;
mod sizes;
mod sorter;

pub use body::batch;
pub use faults::{BatchFault, LabelFault};
pub use laws::batch_laws;
pub use limits::{MOST_BODY_ROW_BYTES, MOST_LABEL_BYTES};
