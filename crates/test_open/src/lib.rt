//! Worked examples of opening a store on a disk: logs as crashes leave them, damaged ones, and what
//! is counted in them. They stand beside the crate, whose contracts alone prove them.
#![tactic(auto)]

#[cfg(test)]
mod counting;
#[cfg(test)]
mod crashes;
#[cfg(test)]
mod damage;
#[cfg(test)]
mod logs;
#[cfg(test)]
mod opening;
