//! The commands of the program over a store that nobody shares.
#![tactic(auto)]

mod command;

pub use command::run;
