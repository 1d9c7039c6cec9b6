//! Data pages of Apache Parquet (`README.md`, "Data Pages"; `Encodings.md`, "Plain") with
//! definition levels of one bit, uncompressed: each range of cells of a column has one page, which
//! is written and read.
//!
//! ```text
//! header   PageHeader by the Thrift compact protocol: the sizes, the number of cells, encodings
//! levels   in an optional column: their length in four bytes, and a bit for each cell whether it
//!          has a value, in hybrid runs
//! values   those that are there: eight bytes each, or four bytes of length and the bytes
//! ```
//!
//! Numbers stand with their lowest byte first.
#![tactic(auto)]

mod cell;
mod fault;
mod header;
mod laws;
mod levels;
mod plain;
mod reader;
mod values;
mod writer;

pub use cell::{Cell, CellKind, CellList, Cells, MAX_ROWS};
pub use fault::PageFault;
pub use laws::{
    dictionaries_are_as_described, faulty_dictionaries_are_none, levels_are_short, one_code_page,
    one_coding, one_dictionary, one_page,
};
pub use reader::{read_first_page, read_page};
pub use writer::write_page;
