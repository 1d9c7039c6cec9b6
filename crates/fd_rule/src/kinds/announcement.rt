ghost use Rattle.std.specs.Prelude.{◌≡◌};
ghost use Rattle.fd_rule.specs.Kinds.Announcement.{MayAnnounce, with_announced};
ghost use Rattle.fd_rule.specs.Seats.{IsSameSeat, seat_slots, seat_state, seat_view};

use crate::plays::Announcement;
use crate::seat::Seat;
use fd_kinds::Held;

/// Seat 0 reports all numbers up to `n` as synced. It takes no memory.
pub fn announce<P: Held>(seat: &mut Seat<P>, n: u64)
    requires may { MayAnnounce n (seat_view seat.old) }
    ensures me { seat_state seat.new
        ≡ (with_announced n (seat_view seat.old), seat_slots seat.old) }
    ensures same { IsSameSeat seat.old seat.new }
{
    seat.board
        .shared
        .store::<Announcement>(&mut seat.inner, 3, n);
}
