//! The turn, waited for, and given back with the shelf as it was taken.
ghost use Rattle.std.specs.Prelude.{◌≡◌, []};
ghost use Rattle.fd_pool.specs.Turns.{InHand, HasWaited};
ghost use Rattle.fd_rule.specs.Kinds.TurnReturn.{with_given};
ghost use Rattle.fd_rule.specs.Seats.{IsSameSeat, seat_slots, seat_state, seat_view};

use fd_kinds::Held;
use fd_rule::{Seat, Turn, give_turn, take_turn};
use fd_shelf::Shelf;
use std::sync::Wait;
use std::thread;

/// Waits until nobody has the turn, and takes it. Each other call that waits for the turn waits
/// here.
pub(crate) fn wait_for_turn<R: Wait, P: Held>(rt: &R, seat: &mut Seat<P>) -> Shelf<P>
    requires slots { seat_slots seat.old ≡ [] }
    ensures taken { HasWaited (seat_view seat.old) result (seat_state seat.new) }
    ensures same { IsSameSeat seat.old seat.new }
{
    for _ in rt.forever() {
        match take_turn(seat) {
            Turn::Taken(shelf) => return shelf,
            Turn::Held { holder: _ } => thread::yield_now(),
        }
    }
    unreachable!()
}

/// Gives the turn back with the shelf as it was taken.
pub(crate) fn give_up<P: Held>(seat: &mut Seat<P>, shelf: Shelf<P>)
    requires hand { InHand shelf (seat_state seat.old) }
    ensures me { seat_state seat.new ≡ (with_given shelf.book (seat_view seat.old), []) }
    ensures same { IsSameSeat seat.old seat.new }
{
    give_turn(seat, shelf);
}
