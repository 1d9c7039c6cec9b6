use crate::base::Base;
use crate::pass::Pass;
use fd_kinds::Held;
use fd_shelf::Shelf;

/// A base, and the pass of its one seat, number 0, from which the others are split off.
#[derive(Drop)]
pub struct Made<P: Held> {
    pub base: Base<P>,
    pub first: Pass,
}

/// Why no base was made.
#[derive(Drop)]
pub enum NotMade<P: Held> {
    /// Memory was wanting. The shelf comes back.
    NoMemory { shelf: Shelf<P> },
}
