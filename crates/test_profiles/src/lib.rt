//! Worked examples of the wire format, of profiles, of the rows of a write and of batches. They
//! stand beside their crates, whose contracts alone prove them.
#![tactic(auto)]

#[cfg(test)]
mod batches;
#[cfg(test)]
mod large_profiles;
#[cfg(test)]
mod profiles;
#[cfg(test)]
mod rows;
#[cfg(test)]
mod wire;
