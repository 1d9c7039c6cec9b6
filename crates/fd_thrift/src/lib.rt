//! The Thrift compact protocol (Apache Thrift, `thrift-compact-protocol.md`) for trees of numbers,
//! texts, lists and structs: each tree has one spelling, which is written and read.
//!
//! ```text
//! struct   its fields, and then the byte 0 ("Struct encoding")
//! field    a byte, 16 times the step from the last id plus the type, and the value
//! list     a byte, 16 times the size plus the type, and the items ("List and Set"); from 15 items
//!          on, 15 takes the place of the size, which follows as a varint
//! number   zigzag (0, -1, 1, -2, ..) as a varint: 7 bits a byte, the lowest first
//! binary   its length as a varint, and the bytes
//! type     5 and 6: numbers of 32 and 64 bits; 8: binary; 9: list; 12: struct
//! ```
#![tactic(auto)]

mod bytes;
mod fault;
mod kind;
mod laws;
mod memory;
mod numbers;
mod reader;
mod tree;
mod writer;

pub use bytes::Bytes;
pub use fault::ThriftFault;
pub use laws::{first_fault_is_told, one_spelling, spellings_are_read};
pub use memory::NoMemory;
pub use reader::read;
pub use tree::{Tree, TreeField, TreeFields, Trees};
pub use writer::write;
