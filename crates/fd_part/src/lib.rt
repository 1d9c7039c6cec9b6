//! Parts of a store: one batch by columns, or the rows of a range of numbers with their file.
//!
//! ```text
//! loose   number | columns of one batch, with the number 0 | bytes
//! sealed  lo..hi | columns of the numbered rows            | bytes | file of the rows
//! ```
//!
//! A loose part puts the rows of a batch in columns once, with the number 0, and sums their bytes
//! once. Its number stands beside them, so that sharing a part, giving it its number and reading
//! its columns copies no rows. A sealed part keeps the table that it was sealed from or that its
//! file was read to, and the file.
#![tactic(auto)]

mod batch_columns;
mod batch_list;
mod batch_sizes;
mod part;
mod range_file;
mod sealed_range;

pub use part::Part;
