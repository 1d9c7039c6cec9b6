ghost use Rattle.std.specs.Prelude.{◌≡◌, map};
ghost use Rattle.fd_rule.specs.Seats.{IsSameSeat, seat_state};
ghost use Rattle.fd_shelf.specs.Steps.{highest};
ghost use Rattle.stubs.specs.Stubs.{stub_meaning};
ghost use Rattle.test_pool.specs.Rests.{AtPin, AtRest};

use fd_kinds::Held;
use fd_pins::{Pin, pin, unpin};
use fd_pool::list;
use fd_rule::Seat;
use fd_shelf::InBlock;
use std::sync::Wait;
use stubs::Stub;

/// The last number of parts, and 0 where there is none.
pub(crate) fn last_number(parts: &[InBlock<Stub>]) -> u64
    ensures { result ≡ highest (map (λ i. stub_meaning i.part) parts.now) }
{
    let mut last = 0;
    for placed in parts {
        last = placed.part.hi();
    }
    last
}

/// Pins the mark.
pub fn pin_mark(seat: &mut Seat<Stub>) -> Pin
    requires rest { AtRest (seat_state seat.old) }
    ensures pinned { AtPin result.w (seat_state seat.new) }
    ensures same { IsSameSeat seat.old seat.new }
{
    pin(seat)
}

/// The last number of the parts up to the pin. None for want of memory.
pub fn list_last<R: Wait>(rt: &R, seat: &mut Seat<Stub>, pin: &Pin) -> Option<u64>
    requires pinned { AtPin pin.now.w (seat_state seat.old) }
    ensures pinned { AtPin pin.now.w (seat_state seat.new) }
    ensures same { IsSameSeat seat.old seat.new }
{
    match list(rt, seat, pin) {
        Ok(picked) => Some(last_number(picked.as_slice())),
        Err(_) => None,
    }
}

/// Gives up the pin.
pub fn unpin_mark(seat: &mut Seat<Stub>, pin: Pin)
    requires pinned { AtPin pin.w (seat_state seat.old) }
    ensures rest { AtRest (seat_state seat.new) }
    ensures same { IsSameSeat seat.old seat.new }
{
    unpin(seat, pin);
}

/// The last number of the parts up to the mark of now. None for want of memory.
pub fn read_one<R: Wait>(rt: &R, seat: &mut Seat<Stub>) -> Option<u64>
    requires rest { AtRest (seat_state seat.old) }
    ensures rest { AtRest (seat_state seat.new) }
    ensures same { IsSameSeat seat.old seat.new }
{
    let pin = pin_mark(seat);
    let last = list_last(rt, seat, &pin);
    unpin_mark(seat, pin);
    last
}
