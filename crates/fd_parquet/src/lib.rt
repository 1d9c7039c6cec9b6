//! The Apache Parquet file of a table of numbered rows (parquet-format, `README.md`, "File
//! format"), as `fd_table_file` draws it: one row group, and a chunk for each column, uncompressed.
//! A table has one spelling, which is written (`write_file`) and read (`read_file`).
//!
//! Reading goes from the outside in, and each step has its fault (`FileFault`): the magic at both
//! ends, the footer in front of its length, the schema that the footer tells, then column by column
//! the pages, and at last the file as a whole, whose rows have to be in order and whose footer has
//! to be the one that `write_file` writes.
#![tactic(auto)]

mod columns;
mod contents;
mod fault;
mod frame;
mod labels;
mod pages;
mod reader;
mod row_builder;
mod rows;

pub use fault::FileFault;
pub use fd_file_writer::write_file;
pub use fd_table_file::{one_file, one_table};
pub use reader::{FileTable, read_file};
