ghost use Rattle.std.specs.Prelude.{◌≡◌, ℕ};
ghost use Rattle.fd_rule.specs.Kinds.PinDeparture.{without_pin};
ghost use Rattle.fd_rule.specs.Seats.{IsSameSeat, seat_slots, seat_state, seat_view};
ghost use Rattle.fd_rule.specs.View.{settled};

use crate::plays::PinDeparture;
use crate::seat::Seat;
use fd_kinds::Held;

/// Gives up the seat's pin. It takes no memory.
pub fn leave<P: Held>(seat: &mut Seat<P>)
    requires pinned { (w : ℕ) × ((seat_view seat.old).pinning.state ≡ settled w) }
    ensures me { seat_state seat.new
        ≡ (without_pin (seat_view seat.old), seat_slots seat.old) }
    ensures same { IsSameSeat seat.old seat.new }
{
    let word = 2 * seat.number as usize + 6;
    seat.board
        .shared
        .store::<PinDeparture>(&mut seat.inner, word, u64::MAX);
}
