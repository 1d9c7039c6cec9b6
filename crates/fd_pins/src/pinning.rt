ghost use Rattle.std.specs.Prelude.{◌≡◌};
ghost use Rattle.fd_pins.specs.Pinned.{with_pinned};
ghost use Rattle.fd_rule.specs.Kinds.MarkLoad.{Loaded};
ghost use Rattle.fd_rule.specs.Kinds.PinDeparture.{without_pin};
ghost use Rattle.fd_rule.specs.Seats.{IsSameSeat, seat_slots, seat_state, seat_view};
ghost use Rattle.fd_rule.specs.View.{idle, settled};

use crate::Pin;
use fd_kinds::Held;
use fd_rule::{Seat, arrive, leave, load_mark, settle};

/// Pins the mark, which is loaded in this call. Until the pin is given up, no number above it is
/// sealed. It takes no memory.
pub fn pin<P: Held>(seat: &mut Seat<P>) -> Pin
    requires idles { (seat_view seat.old).pinning.state ≡ idle }

    // The seat stands settled at the mark that it has loaded last.
    ensures me { seat_state seat.new
        ≡ (with_pinned result.w (seat_view seat.old), seat_slots seat.old) }

    // It is at least each mark and each synced number that the seat has loaded before.
    ensures loaded { Loaded result.w (seat_view seat.old) }
    ensures same { IsSameSeat seat.old seat.new }
{
    arrive(seat);
    let w = load_mark(seat, false);
    settle(seat, w);
    Pin { w }
}

/// Gives up the pin. It takes no memory.
pub fn unpin<P: Held>(seat: &mut Seat<P>, pin: Pin)
    requires pinned { (seat_view seat.old).pinning.state ≡ settled pin.w }
    ensures me { seat_state seat.new
        ≡ (without_pin (seat_view seat.old), seat_slots seat.old) }
    ensures same { IsSameSeat seat.old seat.new }
{
    let Pin { w: _ } = pin;
    leave(seat);
}
