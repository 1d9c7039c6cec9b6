//! Lists, texts and bytes, which contracts see as lists, and what every crate above says of
//! memory, counts and digits.
#![tactic(auto)]

mod digits;
mod items;
mod memory;
mod room;
mod share;
mod shared;
mod text;

pub use digits::read_size;
pub use items::{Bytes, BytesList, Items};
pub use memory::NoMemory;
pub use room::RoomyList;
pub use share::Share;
pub use shared::Shared;
pub use text::{Text, Texts};
