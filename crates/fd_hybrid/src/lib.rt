//! The RLE / bit-packing hybrid runs of Apache Parquet (Encodings.md, "Run Length Encoding /
//! Bit-Packing Hybrid"), without a length before them. A width counts bits, from 1 to 32. Of the
//! many ways in which Parquet may write the same values this crate writes one, and reads no other.
//!
//! ```text
//! runs       run after run, until no value is left
//! run        its header, a varint, and its content
//! repeated   header: twice the number of copies; content: the value in whole bytes, lowest first
//! packed     header: twice the number of groups, plus 1; content: eight values a group, packed
//!            from the lowest bit of the first byte upwards, so that a group has `width` bytes
//! ```
//!
//! Eight or more equal values that stand next are one repeated run; what stands between such
//! stretches is packed, and a last group is filled up with zeros.
#![tactic(auto)]

mod bits;
mod fault;
mod groups;
mod header;
mod items;
mod laws;
mod memory;
mod packer;
mod runs;
mod stretch;
mod unpacker;

pub use fault::HybridFault;
pub use items::{Bytes, Items, Values};
pub use laws::{one_reading, one_spelling};
pub use memory::NoMemory;
pub use packer::pack;
pub use unpacker::unpack;
