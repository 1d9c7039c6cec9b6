ghost use Rattle.std.specs.Prelude.{◌≡◌, true, false};
ghost use Rattle.fd_rule.specs.Kinds.MarkLoad.{Loaded, with_load};
ghost use Rattle.fd_rule.specs.Seats.{IsSameSeat, seat_slots, seat_state, seat_view};

use crate::plays::{MarkLoad, ScanOpening};
use crate::seat::Seat;
use fd_kinds::Held;
use fd_shelf::book_laws;

/// The mark. A seat that has arrived may settle at it. Where `scan` holds, a scan of the pins is
/// open, with the mark as its limit. It takes no memory.
pub fn load_mark<P: Held>(seat: &mut Seat<P>, scan: bool) -> u64
    ensures me { seat_state seat.new
        ≡ (with_load scan result (seat_view seat.old), seat_slots seat.old) }
    ensures loaded { Loaded result (seat_view seat.old) }
    ensures same { IsSameSeat seat.old seat.new }
{
    if scan { open_scan(seat) } else { load(seat) }
}

fn load<P: Held>(seat: &mut Seat<P>) -> u64
    ensures me { seat_state seat.new
        ≡ (with_load false result (seat_view seat.old), seat_slots seat.old) }
    ensures loaded { Loaded result (seat_view seat.old) }
    ensures same { IsSameSeat seat.old seat.new }
{
    book_laws();
    seat.board.shared.load::<MarkLoad>(&mut seat.inner, 1)
}

fn open_scan<P: Held>(seat: &mut Seat<P>) -> u64
    ensures me { seat_state seat.new
        ≡ (with_load true result (seat_view seat.old), seat_slots seat.old) }
    ensures loaded { Loaded result (seat_view seat.old) }
    ensures same { IsSameSeat seat.old seat.new }
{
    book_laws();
    let mark = seat.board.shared.load::<ScanOpening>(&mut seat.inner, 1);
    seat.scan = 0;
    mark
}
