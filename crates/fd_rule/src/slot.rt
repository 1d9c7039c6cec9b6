use fd_kinds::Held;
use fd_shelf::Shelf;

/// What lies in a slot of the table: nothing, the shelf, or the part of a batch that has landed.
#[derive(Drop)]
pub enum SlotValue<P: Held> {
    Empty,
    Home(Shelf<P>),
    Landed(P),
}
