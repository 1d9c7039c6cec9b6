ghost use Rattle.std.specs.Prelude.{◌≡◌};
ghost use Rattle.fd_rule.specs.Kinds.MarkRaise.{MayRaise, with_raised};
ghost use Rattle.fd_rule.specs.Seats.{IsSameSeat, seat_slots, seat_state, seat_view};

use crate::plays::MarkRaise;
use crate::seat::Seat;
use fd_kinds::Held;

/// Raises the mark to a number up to which the book in hand has every number. It takes no memory.
pub fn raise_mark<P: Held>(seat: &mut Seat<P>, mark: u64)
    requires may { MayRaise mark (seat_view seat.old).turn }
    ensures me { seat_state seat.new
        ≡ (with_raised mark (seat_view seat.old), seat_slots seat.old) }
    ensures same { IsSameSeat seat.old seat.new }
{
    seat.board
        .shared
        .store::<MarkRaise>(&mut seat.inner, 1, mark);
}
