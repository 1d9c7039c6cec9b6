//! What the Apache Parquet file of a table of numbered rows is (parquet-format, `README.md`, "File
//! format"), and what its writer and its reader share: the columns of a table as columns of a file,
//! their cells, and the footer.
//!
//! ```text
//! "PAR1"                 the magic
//! chunk of column 0      pages of 1,000 cells, and a last one of what remains
//! ..                     the next column's chunk right behind it
//! chunk of column n - 1
//! footer                 FileMetaData: the columns, where each chunk stands, the range of numbers
//! length                 the footer's length, four bytes, the lowest first
//! "PAR1"                 the magic
//! ```
//!
//! There is one row group, and nothing is compressed. With plain pages each text stands where its
//! cell does; with dictionaries the page of the distinct texts stands first in a chunk. A table has
//! one file of each kind (`one_file`), and no bytes are the files of two tables (`one_table`).
#![tactic(auto)]

mod cells;
mod comparison;
mod footer;
mod frame;
mod laws;

pub use cells::{cells_of, is_required, kind_in, kind_of};
pub use comparison::has_cells;
pub use footer::footer_of;
pub use frame::MAGIC;
pub use laws::{
    cells_fit, cells_have_kinds, chunks_are_placed, columns_have_places, one_file, one_table,
};
