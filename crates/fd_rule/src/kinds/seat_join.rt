ghost use Rattle.std.specs.Prelude.{◌≡◌, []};
ghost use Rattle.fd_rule.specs.Kinds.SeatJoin.{MayJoin, join_of};
ghost use Rattle.fd_rule.specs.Seats.{IsSameSeat, seat_slots, seat_state, seat_table, seat_view};

use crate::plays::SeatChange;
use crate::seat::Seat;
use fd_kinds::Held;

/// Takes in another seat of the same table, with its numbers and what it knows. It takes no memory.
pub fn join<P: Held>(seat: &mut Seat<P>, other: Seat<P>)
    requires may { MayJoin (seat_view other) }
    requires slots { seat_slots other ≡ [] }
    requires base { seat_table other ≡ seat_table seat.old }
    ensures me { seat_state seat.new
        ≡ (join_of (seat_view seat.old) (seat_view other.entry), seat_slots seat.old) }
    ensures base { seat_table seat.new ≡ seat_table seat.old }
    ensures same { IsSameSeat seat.old seat.new }
{
    let Seat {
        board: _,
        number: _,
        next,
        splits,
        scan: _,
        count: _,
        inner,
    } = other;
    seat.board
        .shared
        .join_seat::<SeatChange>(&mut seat.inner, inner);
    if splits {
        seat.splits = true;
        seat.next = next;
    }
}
