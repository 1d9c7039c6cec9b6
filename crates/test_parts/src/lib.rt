//! Worked examples of the part list, and of compacting the parts that sessions write. They stand
//! beside their crates, whose contracts alone prove them.
#![tactic(auto)]

#[cfg(test)]
mod batches;
#[cfg(test)]
mod compactions;
#[cfg(test)]
mod shelves;
#[cfg(test)]
mod thresholds;
