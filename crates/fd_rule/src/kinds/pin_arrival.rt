ghost use Rattle.std.specs.Prelude.{◌≡◌};
ghost use Rattle.fd_rule.specs.Kinds.PinArrival.{with_arrival};
ghost use Rattle.fd_rule.specs.Seats.{IsSameSeat, seat_slots, seat_state, seat_view};
ghost use Rattle.fd_rule.specs.View.{idle};

use crate::plays::PinArrival;
use crate::seat::Seat;
use fd_kinds::Held;

/// The seat is about to pin a mark, which it loads next. It takes no memory.
pub fn arrive<P: Held>(seat: &mut Seat<P>)
    requires idles { (seat_view seat.old).pinning.state ≡ idle }
    ensures me { seat_state seat.new
        ≡ (with_arrival (seat_view seat.old), seat_slots seat.old) }
    ensures same { IsSameSeat seat.old seat.new }
{
    let word = 2 * seat.number as usize + 6;
    seat.board
        .shared
        .store::<PinArrival>(&mut seat.inner, word, 0);
}
