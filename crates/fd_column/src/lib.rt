//! Numbered rows by columns: one column for each fixed field, and one for each label name that
//! occurs.
//!
//! ```text
//! place  0    1     2            3            4            5            6          7
//!        _tx  name  sample_type  sample_unit  period_type  period_unit  timestamp  stack
//!        8       9         10     11 ..
//!        period  duration  value  labels.NAME ..  pprof_labels.NAME ..
//! ```
//!
//! `_tx` is the number of the row's batch. The names of the labels stand in byte order. A row that
//! lacks a label has an absent cell in its column. A stack is one text: its frames one behind the
//! other, each behind its length in four bytes, little-endian.
#![tactic(auto)]

mod builder;
mod cells;
mod columns;
mod label_columns;
mod named_table;
mod names;
mod part;
pub mod places;
mod rows;
mod stacks;
mod table;
mod table_builder;
mod texts;

pub use builder::PartBuilder;
pub use columns::Columns;
pub use fd_dictionary::Dictionary;
pub use part::ColumnPart;
pub use stacks::{is_short, read_stack, text_of};
