//! Made bodies beside those that `tools/made_bodies.py` makes apart from the program.
#![tactic(auto)]

#[cfg(test)]
mod bodies;
