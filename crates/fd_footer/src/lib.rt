//! The footer of a block's Apache Parquet file (parquet-format, `parquet.thrift`, FileMetaData):
//! the columns, the places of their chunks, and the range of numbers of the rows. It knows nothing
//! of pages and rows. Each footer has one spelling, by the Thrift compact protocol:
//!
//! ```text
//! FileMetaData
//!   1 version             1
//!   2 schema              the root's element, and one for each column: type, repetition, name
//!   3 num_rows
//!   4 row_groups          one, and none where there are no rows
//!       1 columns         a chunk for each column: its place, and what its pages hold
//!       2 total_byte_size
//!       3 num_rows
//!   5 key_value_metadata  hi, lo: the range of the rows' numbers; pages: plain or dict
//!   6 created_by          frostd
//! ```
#![tactic(auto)]

mod chunks;
mod columns;
mod fault;
mod field_ids;
mod fields;
mod footer;
mod key_values;
mod laws;
mod layout;
mod lookup;
mod reader;
mod schema;
mod shape;
mod table;
mod writer;

pub use chunks::has_dictionary;
pub use fault::FooterFault;
pub use footer::{Chunk, Chunks, Column, ColumnType, Columns, Footer, Pages};
pub use laws::{footers_are_read, footers_are_spelled, one_footer};
pub use reader::read_footer;
pub use table::FooterTable;
pub use writer::write_footer;
