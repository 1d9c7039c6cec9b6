//! Writes the Apache Parquet file of a table of numbered rows (parquet-format, `README.md`, "File
//! format"), as `fd_table_file` draws it: the magic, the chunk of each column, the footer with its
//! length, and the magic. The file is built in memory, front to back.
#![tactic(auto)]

mod chunks;
mod writer;

pub use writer::write_file;
