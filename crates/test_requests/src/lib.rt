//! Worked examples of requests and replies, of the JSON of bodies and answers, and of selectors.
//! They stand beside their crates, whose contracts alone prove them.
#![tactic(auto)]

#[cfg(test)]
mod answers;
#[cfg(test)]
mod bodies;
#[cfg(test)]
mod replies;
#[cfg(test)]
mod requests;
#[cfg(test)]
mod selectors;
