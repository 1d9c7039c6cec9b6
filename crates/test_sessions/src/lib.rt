//! Worked examples over the whole program: the words, the input and its faults, and what comes
//! out.
#![tactic(auto)]

#[cfg(test)]
mod cases;
#[cfg(test)]
mod devices;
#[cfg(test)]
mod sessions;
