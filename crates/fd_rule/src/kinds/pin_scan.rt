ghost use Rattle.std.specs.Prelude.{◌≡◌, ◌<◌};
ghost use Rattle.fd_rule.specs.Kinds.PinScan.{with_passed};
ghost use Rattle.fd_rule.specs.Seats.{IsSameSeat, seat_count, seat_slots, seat_state, seat_view};

use crate::plays::PinScan;
use crate::seat::Seat;
use fd_kinds::Held;

/// The pin word of the next seat of the scan that the seat has open. It takes no memory.
pub fn scan_pin<P: Held>(seat: &mut Seat<P>) -> u64
    requires inside { (seat_view seat.old).pinning.next < (seat_count seat.old) }
    ensures me { seat_state seat.new
        ≡ (with_passed result (seat_view seat.old), seat_slots seat.old) }
    ensures same { IsSameSeat seat.old seat.new }
{
    let word = 2 * seat.scan as usize + 6;
    let pin = seat.board.shared.load::<PinScan>(&mut seat.inner, word);
    seat.scan += 1;
    pin
}
