ghost use Rattle.std.specs.Prelude.{◌≡◌, []};
ghost use Rattle.fd_rule.specs.Kinds.SeatSplit.{MaySplit, split_left, split_right};
ghost use Rattle.fd_rule.specs.Seats.{IsSameSeat, seat_count, seat_slots, seat_state, seat_table, seat_view};

use crate::plays::SeatChange;
use crate::seat::Seat;
use fd_kinds::Held;

/// A new seat with the least number that was not split off. It begins with what the other has seen,
/// and with nothing of its own. It takes no memory.
pub fn split<'a, P: Held>(seat: &mut Seat<'a, P>) -> Seat<'a, P>
    requires may { MaySplit
        (seat_count seat.old)
        (seat_view seat.old).place }
    ensures me { seat_state seat.new
        ≡ (split_left (seat_view seat.old), seat_slots seat.old) }
    ensures new { seat_state result ≡ (split_right (seat_view seat.old), []) }
    ensures base { seat_table result ≡ seat_table seat.old }
    ensures new_board { result.board ≡ seat.old.board }
    ensures same { IsSameSeat seat.old seat.new }
{
    let number = seat.next;
    let inner = seat.board.shared.split_seat::<SeatChange>(&mut seat.inner);
    seat.next = number + 1;
    Seat {
        board: seat.board,
        number,
        next: 0,
        splits: false,
        scan: 0,
        count: seat.count,
        inner,
    }
}
