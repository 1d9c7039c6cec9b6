//! The texts of a query: selectors of rows, and times.
//!
//! ```text
//! selector   type | type { } | type { matcher, .. }
//! type       name:sample type:sample unit:period type:period unit, and :delta behind it or not
//! matcher    label="value" | label!="value"           in a value \" is a quote and \\ a backslash
//! time       milliseconds since the Unix epoch, or an instant in RFC 3339
//! ```
#![tactic(auto)]

mod braces;
mod faults;
mod kind;
mod reader;
mod selectors;
mod times;

pub use faults::SelectFault;
pub use selectors::{selector, selector_laws};
pub use times::{MomentFault, moment};
