use fd_kinds::Held;
use fd_shelf::Shelf;

/// What a try to take the turn gave: the shelf, or the number of the seat that holds the turn.
#[derive(Drop)]
pub enum Turn<P: Held> {
    Taken(Shelf<P>),
    Held { holder: u64 },
}
