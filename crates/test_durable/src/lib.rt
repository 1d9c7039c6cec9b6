//! Worked examples of a store over a disk: a batch is on the disk before its number is answered,
//! whichever call of the disk fails. They stand beside the crate, whose contracts alone prove them.
#![tactic(auto)]

#[cfg(test)]
mod faults;
#[cfg(test)]
mod stores;
#[cfg(test)]
mod writes;
