//! A column of texts as its distinct texts and, for each cell, which of them it is.
//!
//! ```text
//! cells     go    -  rust   go    -
//! picks      1    0     2    1    0    0 where the cell is absent, else its entry's place from 1,
//!                                      in 32 bits each, and in 64 from the first that needs them on
//! entries   go rust                    each text once, in the order in which they come first
//! bytes     gorust                     the entries one behind the other
//! ends       2    6                    the place at which each entry ends
//! ```
#![tactic(auto)]

mod builder;
mod dictionary;
mod interner;
mod picks;
mod pieces;

pub use builder::DictionaryBuilder;
pub use dictionary::Dictionary;
