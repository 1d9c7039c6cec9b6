//! Worked examples of the pages of a chunk with a dictionary, spelled from the descriptions of the
//! format: they are written and read, and other bytes are refused. Contracts alone prove them.
#![tactic(auto)]

#[cfg(test)]
mod codes;
#[cfg(test)]
mod dictionaries;
