//! Command lines and what they say. They stand beside their crate, whose contracts alone prove them.
#![tactic(auto)]

#[cfg(test)]
mod plans;
