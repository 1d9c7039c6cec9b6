//! The wire format of Protocol Buffers (protobuf.dev, "Encoding"): varints and the fields of a
//! message. All places count bytes from the first byte of the slice that a call is given.
//!
//!     message   field, field, ..
//!     field     key   value
//!     key       a varint: the field's number * 8 + its wire type
//!     value     0   a varint
//!               1   eight bytes, the lowest first
//!               2   a span: a varint, which is a length, and so many bytes
//!               5   four bytes, the lowest first
//!     varint    seven bits a byte, the lowest first; each byte but the last has its top bit set
//!
//!     08 96 01         the field 1 with the varint 150
//!     12 03 63 70 75   the field 2 with the span `cpu`
#![tactic(auto)]

mod fault;
mod field;
mod list;
mod numbers;

pub use fault::WireFault;
pub use field::{Field, WireValue};
pub use list::{FieldList, Varints, fields, varints};
pub use numbers::varint;
