//! The pages of a chunk with a dictionary (Apache Parquet, `README.md`, "Data Pages";
//! `Encodings.md`, "Dictionary Encoding"), uncompressed.
//!
//! ```text
//! dictionary page   header   PageHeader by the Thrift compact protocol, with the count of texts
//!                   texts    four bytes of length and the bytes, each above the one before
//! data page         header   PageHeader with the count of cells and the encoding RLE_DICTIONARY
//!                   levels   in an optional column: their length in four bytes, and a bit for each
//!                            cell whether it has a value, in hybrid runs
//!                   indexes  a byte of width, the least of at least 1 that holds every index of
//!                            the dictionary, and the indexes of the cells' texts in hybrid runs
//! ```
//!
//! Numbers stand with their lowest byte first. The texts of a dictionary are slices of the bytes
//! that it is read from; none is copied. A cell is a pick: 0 where it is absent, and else one more
//! than the index of its text.
#![tactic(auto)]

mod code_page;
mod dictionary;
mod header;
mod page_type;
mod pick_pages;
mod picks;
mod runs;
mod texts;
mod width;

pub use code_page::{read_code_page, write_code_page};
pub use dictionary::{read_dictionary, write_dictionary};
pub use pick_pages::{read_picks, write_picks};
pub use picks::Picks;
pub use texts::TextSlices;
