//! Worked examples of keeping a log on a disk, with crashes and faults at each call of the disk.
//! They stand beside the crate, whose contracts alone prove them.
#![tactic(auto)]

#[cfg(test)]
mod crashes;
#[cfg(test)]
mod keeping;
