//! Worked examples of files of tables, of the parts that keep them and of what they are made of,
//! spelled from the descriptions of the formats: they are written and read, and what is wrong with
//! other bytes is told. They stand beside their crates, whose contracts alone prove them.
#![tactic(auto)]

#[cfg(test)]
mod files;
#[cfg(test)]
mod footers;
#[cfg(test)]
mod hybrid;
#[cfg(test)]
mod pages;
#[cfg(test)]
mod parts;
#[cfg(test)]
mod thrift;
