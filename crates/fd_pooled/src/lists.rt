//! The parts up to a mark that is pinned meanwhile.
ghost use Rattle.std.specs.Prelude.{◌≡◌, ℕ, map, IfOk, OnErr};
ghost use Rattle.fd_pooled.specs.Pooling.{IsResting};
ghost use Rattle.fd_pooled.specs.Steps.{HasListed, HasPinned};
ghost use Rattle.fd_rule.specs.Seats.{IsSameSeat, seat_state, seat_view};
ghost use Rattle.fd_rule.specs.View.{Given};

use fd_kinds::{Held, NoMemory};
use fd_pins::{pin, unpin};
use fd_pool::list;
use fd_rule::Seat;
use fd_shelf::Picked;
use std::sync::Wait;

/// The parts up to a watermark.
#[derive(Drop)]
pub(crate) struct Listed<P: Held> {
    pub watermark: u64,
    pub parts: Picked<P>,
}

/// Pins the mark, lists the parts up to it, and gives up the pin.
pub(crate) fn pin_and_list<R: Wait, P: Held>(
    rt: &R,
    seat: &mut Seat<P>,
) -> Result<Listed<P>, NoMemory>
    requires rest { IsResting (seat_state seat.old) }
    ensures ok { IfOk result (λ listed.
        HasListed
        (seat_view seat.old)
        listed.watermark
        (map (λ i. P.means i.part) listed.parts)
        (seat_view seat.new)) }
    ensures err { OnErr result (
        (w : ℕ) × (g : Given) × HasPinned (seat_view seat.old) w g (seat_view seat.new)) }
    ensures rest { IsResting (seat_state seat.new) }
    ensures same { IsSameSeat seat.old seat.new }
{
    let pin = pin(seat);
    let watermark = pin.w;
    let picked = list(rt, seat, &pin);
    unpin(seat, pin);
    let parts = picked?;
    Ok(Listed { watermark, parts })
}
