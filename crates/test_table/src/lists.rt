ghost use Rattle.std.specs.Prelude.{◌≡◌, ◌≤◌};
ghost use Rattle.fd_rule.specs.Lists.{In};
ghost use Rattle.fd_rule.specs.Seats.{IsSameSeat, seat_view};
ghost use Rattle.fd_rule.specs.View.{settled};

use crate::seals::last_number;
use fd_rule::{Seat, Turn, give_turn, take_turn};
use stubs::Stub;

/// The last number of the parts up to a watermark that the seat has pinned. None where another seat
/// has the turn, or for want of memory.
pub fn list(seat: &mut Seat<Stub>, w: u64) -> Option<u64>
    requires pinned { (seat_view seat.old).pinning.state ≡ settled w }
    requires loaded { In w (seat_view seat.old).seen.marks }
    ensures same { IsSameSeat seat.old seat.new }
    ensures place { (seat_view seat.new).place ≡ (seat_view seat.old).place }
    ensures pinned { (seat_view seat.new).pinning ≡ (seat_view seat.old).pinning }
{
    let Turn::Taken(shelf) = take_turn(seat) else {
        return None;
    };
    shelf.is_in_order();
    let picked = shelf.parts_upto(w);
    give_turn(seat, shelf);
    match picked {
        Ok(picked) => Some(last_number(picked.as_slice())),
        Err(_) => None,
    }
}
