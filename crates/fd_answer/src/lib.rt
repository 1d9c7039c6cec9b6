//! Answers of queries over parts.
#![tactic(auto)]

mod answers;

pub use answers::answer;
