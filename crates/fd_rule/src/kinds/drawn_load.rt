ghost use Rattle.std.specs.Prelude.{◌≡◌};
ghost use Rattle.fd_rule.specs.Kinds.DrawnLoad.{LoadedDrawn, with_drawn};
ghost use Rattle.fd_rule.specs.Seats.{IsSameSeat, seat_slots, seat_state, seat_view};

use crate::plays::DrawnLoad;
use crate::seat::Seat;
use fd_kinds::Held;

/// The greatest number drawn. Where it is below `MOST_NUMBERS` of `fd_kinds`, the seat is cleared
/// to draw. It takes no memory.
pub fn load_drawn<P: Held>(seat: &mut Seat<P>) -> u64
    ensures me { seat_state seat.new
        ≡ (with_drawn result (seat_view seat.old), seat_slots seat.old) }
    ensures loaded { LoadedDrawn result (seat_view seat.old) }
    ensures same { IsSameSeat seat.old seat.new }
{
    seat.board.shared.load::<DrawnLoad>(&mut seat.inner, 0)
}
