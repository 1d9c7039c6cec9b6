//! The words of the command line: the command that they name, and what they say to it.
//!
//! ```text
//! session [--dir D]
//! compact [--dir D]
//! persist [--rotate] [--dir D]
//! dump    [--dir D]
//! verify  [--dir D]
//! make    SEED COUNT [--dir D]
//! serve   [--dir D] [--listen A] [--workers K] [--connections N]
//! ```
//!
//! Options stand in any order, each at most once, before, between or behind the operands. `--dir D`
//! and `--dir=D` are the same. Behind the word `--` no word is an option. A value that begins with
//! a hyphen stands behind `=`. Numbers are decimal digits, with no sign and no zero in front.
#![tactic(auto)]

mod faults;
mod forms;
mod numbers;
mod plan;

pub use faults::WordsFault;
pub use plan::{Plan, plan_words};
