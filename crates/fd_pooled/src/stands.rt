//! How far a store is: three loads.
ghost use Rattle.fd_pooled.specs.Calls.{HasStood};
ghost use Rattle.fd_pooled.specs.Pooling.{IsResting};
ghost use Rattle.fd_rule.specs.Seats.{IsSameSeat, seat_state, seat_view};

use fd_kinds::{Held, Stand};
use fd_pool::{drawn, synced, watermark};
use fd_rule::Seat;

/// Loads the synced number, then the mark, then the drawn number, so that none is above the next.
pub(crate) fn stand_of<P: Held>(seat: &mut Seat<P>) -> Stand
    requires rest { IsResting (seat_state seat.old) }
    ensures gives { HasStood (seat_view seat.old) result (seat_view seat.new) }
    ensures rest { IsResting (seat_state seat.new) }
    ensures same { IsSameSeat seat.old seat.new }
{
    let synced = synced(seat);
    let watermark = watermark(seat);
    let drawn = drawn(seat);
    Stand {
        drawn,
        synced,
        watermark,
    }
}
