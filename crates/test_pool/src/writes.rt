ghost use Rattle.std.specs.Prelude.{IfSome, IfNone};
ghost use Rattle.fd_rule.specs.Seats.{IsSameSeat, seat_state};
ghost use Rattle.test_pool.specs.Rests.{AtRest, InFlight};
ghost use Rattle.stubs.specs.Stubs.{stub_meaning};

use fd_kinds::Held;
use fd_kinds::limits::MOST_NUMBERS;
use fd_pool::{Sweep, announce, draw_and_land, drawn, ready, synced, try_sweep, watermark};
use fd_rule::{Seat, draw, land};
use std::sync::Wait;
use stubs::{Stub, loose};

/// Writes one empty batch, and answers its number. None for want of memory.
pub fn write_one<R: Wait>(rt: &R, seat: &mut Seat<Stub>) -> Option<u64>
    requires rest { AtRest (seat_state seat.old) }
    ensures rest { AtRest (seat_state seat.new) }
    ensures same { IsSameSeat seat.old seat.new }
{
    match ready(rt, seat) {
        Ok(()) => {}
        Err(_) => return None,
    }
    match draw_and_land(seat, loose(0)) {
        Ok(receipt) => Some(receipt.number),
        Err(_) => None,
    }
}

/// One sweep, which answers the mark. None where another seat has the turn, or for want of memory.
pub fn sweep(seat: &mut Seat<Stub>) -> Option<u64>
    requires rest { AtRest (seat_state seat.old) }
    ensures rest { AtRest (seat_state seat.new) }
    ensures same { IsSameSeat seat.old seat.new }
{
    match try_sweep(seat) {
        Sweep::Swept { mark } => Some(mark),
        Sweep::Busy { holder: _ } => None,
        Sweep::NoMemory => None,
    }
}

/// Writes so many empty batches and sweeps after each. It answers the last number.
pub fn write_swept<R: Wait>(rt: &R, seat: &mut Seat<Stub>, count: u32) -> u64
    requires rest { AtRest (seat_state seat.old) }
    ensures rest { AtRest (seat_state seat.new) }
    ensures same { IsSameSeat seat.old seat.new }
{
    let mut last = 0;
    for _ in 0..count {
        last = write_one(rt, seat).unwrap_or(0);
        let _ = sweep(seat);
    }
    last
}

/// Draws a number for an empty batch, where the lane is empty. The part has the number.
pub fn begin<R: Wait>(rt: &R, seat: &mut Seat<Stub>) -> Option<Stub>
    requires rest { AtRest (seat_state seat.old) }
    ensures some { IfSome result (λ part. InFlight (stub_meaning part) (seat_state seat.new)) }
    ensures none { IfNone result (AtRest (seat_state seat.new)) }
    ensures same { IsSameSeat seat.old seat.new }
{
    match ready(rt, seat) {
        Ok(()) => {}
        Err(_) => return None,
    }
    if drawn(seat) >= MOST_NUMBERS {
        return None;
    }
    let mut part = loose(0);
    let number = draw(seat, &part);
    part.number(number);
    Some(part)
}

/// Lands the part that a number was drawn for.
pub fn end(seat: &mut Seat<Stub>, part: Stub)
    requires flight { InFlight (stub_meaning part) (seat_state seat.old) }
    ensures rest { AtRest (seat_state seat.new) }
    ensures same { IsSameSeat seat.old seat.new }
{
    land(seat, part);
}

/// Reports all numbers up to the mark as synced, and answers what is then reported. None at any
/// other seat than seat 0.
pub fn report(seat: &mut Seat<Stub>) -> Option<u64>
    requires rest { AtRest (seat_state seat.old) }
    ensures rest { AtRest (seat_state seat.new) }
    ensures same { IsSameSeat seat.old seat.new }
{
    if seat.number() != 0 {
        return None;
    }
    let mark = watermark(seat);
    announce(seat, mark);
    Some(synced(seat))
}
