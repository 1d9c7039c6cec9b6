//! How a pool is started.
ghost use Rattle.std.specs.Prelude.{◌≡◌, ◌≤◌, ◌<◌, ◌+◌, ◌-◌, [], ◌∷◌, true, IfOk, IfErr};
ghost use Rattle.std.specs.Prelude.{vec_len, vec_capacity};
ghost use Rattle.fd_pool.specs.Pools.{ArePassesOf, IsPassAt, HandedBack, views_of};
ghost use Rattle.fd_pool.specs.Pools.{pool_seats, pool_shelf};
ghost use Rattle.fd_pool.specs.Starts.{first_views, split_off, with_next};
ghost use Rattle.fd_rule.specs.Seats.{base_seats, base_table, pass_seats, pass_table, pass_view};
ghost use Rattle.fd_rule.specs.Seats.{seat_count, seat_slots, seat_state, seat_table, seat_view};
ghost use Rattle.fd_rule.specs.declared.limits.TheConstants.{MOST_SEATS};
ghost use Rattle.fd_shelf.specs.Books.{Each};

use crate::pool::{NotStarted, Passes, Pool, Started};
use crate::room::{put_first, put_last};
use fd_kinds::Held;
use fd_lists::Items;
use fd_rule::{Base, Made, NotMade, Pass, Seat, split};
use fd_shelf::Shelf;
use std::alloc::Global;

/// Passes of so many seats that the seat splits off, in the order of their numbers.
fn split_others<P: Held>(seat: &mut Seat<P>, passes: &mut Vec<Pass>, others: u32)
    requires splits { (seat_view seat.old).place.splits ≡ true }
    requires inside { (seat_view seat.old).place.next + others ≤ seat_count seat.old }
    requires empty { passes.old.items ≡ [] }
    requires len { vec_len passes.old ≡ 0 }
    requires room { others < vec_capacity passes.old }
    ensures me { seat_state seat.new
        ≡ (
          with_next ((seat_view seat.old).place.next + others) (seat_view seat.old),
          seat_slots seat.old,
        ) }
    ensures table { seat_table seat.new ≡ seat_table seat.old }
    ensures count { seat_count seat.new ≡ seat_count seat.old }
    ensures views { views_of passes.new.items ≡ split_off (seat_view seat.old) others }
    ensures passes { Each (IsPassAt (seat_table seat.old) (seat_count seat.old)) passes.new.items }
    ensures len { vec_len passes.new ≡ others }
    ensures room { others < vec_capacity passes.new }
{
    for at in 0..others {
        let _ = at;
        put_last(passes, split(seat).leave());
    }
}

/// The passes of all seats, split off the first.
fn split_all<P: Held>(base: &Base<P>, first: Pass, passes: Vec<Pass>, others: u32) -> Passes
    requires table { pass_table first ≡ base_table base.now }
    requires seats { pass_seats first ≡ base_seats base.now }
    requires splits { (pass_view first).place.splits ≡ true }
    requires inside { (pass_view first).place.next + others ≤ base_seats base.now }
    requires empty { passes.items ≡ [] }
    requires len { vec_len passes ≡ 0 }
    requires room { others < vec_capacity passes }
    ensures views { views_of result
        ≡ with_next ((pass_view first).place.next + others) (pass_view first)
        ∷ split_off (pass_view first) others }
    ensures passes { Each (IsPassAt (base_table base.now) (base_seats base.now)) result }
{
    let mut passes = passes;
    let mut seat = Seat::enter(base, first);
    split_others(&mut seat, &mut passes, others);
    put_first(&mut passes, seat.leave());
    Items::from_vec(passes)
}

impl<P: Held> Pool<P> {
    /// A pool over a shelf without stragglers, for 3 to `MOST_SEATS` seats. `synced` is the greatest
    /// number reported synced so far.
    pub fn start(
        alloc: Global,
        shelf: Shelf<P>,
        synced: u64,
        seats: u32,
    ) -> Result<Started<P>, NotStarted<P>>
        requires seats { (3 ≤ seats) × (seats ≤ MOST_SEATS) }
        requires synced { synced ≤ shelf.mark }
        requires stragglers { shelf.book.stragglers ≡ [] }
        ensures passes { IfOk result (λ started. ArePassesOf started.pool started.passes) }
        ensures views { IfOk result (λ started.
            views_of started.passes ≡ first_views shelf synced seats) }
        ensures seats { IfOk result (λ started. pool_seats started.pool ≡ seats) }
        ensures shelf { IfOk result (λ started. pool_shelf started.pool ≡ shelf) }
        ensures err { IfErr result (λ why. HandedBack shelf why) }
    {
        let passes = match Vec::with_capacity(alloc, seats as usize) {
            Ok(passes) => passes,
            Err(_) => return Err(NotStarted::NoMemory { shelf }),
        };
        match Base::make(alloc, shelf, synced, seats) {
            Ok(Made { base, first }) => {
                let passes = split_all(&base, first, passes, seats - 1);
                Ok(Started {
                    pool: Pool { base },
                    passes,
                })
            }
            Err(NotMade::NoMemory { shelf }) => Err(NotStarted::NoMemory { shelf }),
        }
    }
}
