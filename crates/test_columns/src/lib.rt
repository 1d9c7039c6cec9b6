//! Worked examples of columns, of merging them and of scanning them for the answers of queries.
//! They stand beside their crates, whose contracts alone prove them.
#![tactic(auto)]

#[cfg(test)]
mod columns;
#[cfg(test)]
mod dictionaries;
#[cfg(test)]
mod merges;
#[cfg(test)]
mod scans;
