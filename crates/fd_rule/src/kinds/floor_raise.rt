ghost use Rattle.std.specs.Prelude.{◌≡◌};
ghost use Rattle.fd_rule.specs.Kinds.FloorRaise.{MayRaiseFloor, with_floor};
ghost use Rattle.fd_rule.specs.Seats.{IsSameSeat, seat_count, seat_slots, seat_state, seat_view};

use crate::plays::FloorRaise;
use crate::seat::Seat;
use fd_kinds::Held;

/// Raises the floor to at least `l`, which no pin is below: numbers up to it may be sealed. It
/// takes no memory.
pub fn raise_floor<P: Held>(seat: &mut Seat<P>, l: u64)
    requires may { MayRaiseFloor
        (seat_count seat.old)
        l
        (seat_view seat.old).pinning }
    ensures me { seat_state seat.new
        ≡ (with_floor l (seat_view seat.old), seat_slots seat.old) }
    ensures same { IsSameSeat seat.old seat.new }
{
    seat.board
        .shared
        .fetch_max::<FloorRaise>(&mut seat.inner, 4, l);
}
