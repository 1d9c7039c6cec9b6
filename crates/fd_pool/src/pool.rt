use fd_kinds::Held;
use fd_lists::Items;
use fd_rule::{Base, Pass, Seat};
use fd_shelf::Shelf;

/// The passes of seats.
pub type Passes = Items<Pass>;

/// A store's part list, which many seats share. Its passes serve no other pool. Seat 0 is the one
/// that reports numbers as synced.
#[derive(Drop)]
pub struct Pool<P: Held> {
    pub(crate) base: Base<P>,
}

/// A pool, and the passes of all its seats in the order of their numbers.
#[derive(Drop)]
pub struct Started<P: Held> {
    pub pool: Pool<P>,
    pub passes: Passes,
}

/// Why no pool was started.
#[derive(Drop)]
pub enum NotStarted<P: Held> {
    /// Memory was wanting. The shelf comes back.
    NoMemory { shelf: Shelf<P> },
}

impl<P: Held> Pool<P> {
    ghost use Rattle.std.specs.Prelude.{◌≡◌, []};
    ghost use Rattle.fd_pool.specs.Pools.{IsPassOf, pool_seats, pool_table};
    ghost use Rattle.fd_rule.specs.Seats.{pass_view, seat_count, seat_state, seat_table};

    /// Sits down with a pass of this pool: the seat knows what the pass has kept. It gets up by
    /// `Seat::leave`, without a pin, and its pass keeps what it knows. It takes no memory.
    pub fn seat<'a>(&'a self, pass: Pass) -> Seat<'a, P>
        requires pass { IsPassOf self.now pass }
        ensures me { seat_state result ≡ (pass_view pass, []) }
        ensures table { seat_table result ≡ pool_table self.now }
        ensures seats { seat_count result ≡ pool_seats self.now }
    {
        Seat::enter(&self.base, pass)
    }
}
