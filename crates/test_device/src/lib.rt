//! The adapters over readers and writers of the outside, tested over readers and writers whose
//! calls fail, are interrupted or move one byte. `fd_device`'s contracts tell what is counted and
//! handed on; which errors are failures is told here alone. Beside them the disks: that their calls
//! succeed, which images a disk in memory makes, and what the one over a folder does there.
#![tactic(auto)]

#[cfg(test)]
mod disks;
#[cfg(test)]
mod folders;
#[cfg(test)]
mod memory_disks;
#[cfg(test)]
mod scripts;
#[cfg(test)]
mod sinks;
#[cfg(test)]
mod sources;
