//! Worked examples of the log, spelled from the description of the format. They stand beside the
//! crate, whose contracts alone prove them.
#![tactic(auto)]

#[cfg(test)]
mod damage;
#[cfg(test)]
mod logs;
