ghost use Rattle.std.specs.Prelude.{◌≡◌};
ghost use Rattle.fd_rule.specs.Kinds.PinSettlement.{MaySettle, with_pin};
ghost use Rattle.fd_rule.specs.Seats.{IsSameSeat, seat_slots, seat_state, seat_view};

use crate::plays::PinSettlement;
use crate::seat::Seat;
use fd_kinds::Held;

/// Pins a mark that the seat has loaded since it arrived: no number above it is sealed while the
/// seat stands there. It takes no memory.
pub fn settle<P: Held>(seat: &mut Seat<P>, w: u64)
    requires may { MaySettle w (seat_view seat.old).pinning.state }
    ensures me { seat_state seat.new
        ≡ (with_pin w (seat_view seat.old), seat_slots seat.old) }
    ensures same { IsSameSeat seat.old seat.new }
{
    let word = 2 * seat.number as usize + 6;
    seat.board
        .shared
        .store::<PinSettlement>(&mut seat.inner, word, w);
}
