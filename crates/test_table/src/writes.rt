ghost use Rattle.std.specs.Prelude.{◌≡◌, ◌<◌, ◌^◌, true, IfSome, IfNone};
ghost use Rattle.fd_rule.specs.Kinds.NumberDraw.{MayDraw};
ghost use Rattle.fd_rule.specs.Seats.{IsSameSeat, seat_state, seat_view};
ghost use Rattle.test_table.specs.Seats.{AtRest, InFlight};
ghost use Rattle.stubs.specs.Stubs.{stub_meaning};

use crate::sweeps::sweep;
use fd_kinds::Held;
use fd_kinds::limits::MOST_NUMBERS;
use fd_rule::{Seat, draw, land, load_drawn, load_lane};
use std::sync::Wait;
use std::thread;
use stubs::{Stub, loose};

/// Whether the seat may draw: its lane is empty, and few numbers were drawn.
pub(crate) fn is_ready(seat: &mut Seat<Stub>) -> bool
    requires rest { AtRest (seat_state seat.old) }
    ensures rest { AtRest (seat_state seat.new) }
    ensures may { result ≡ true → MayDraw (seat_view seat.new).draws }
    ensures same { IsSameSeat seat.old seat.new }
    ensures place { (seat_view seat.new).place ≡ (seat_view seat.old).place }
{
    let own = seat.number();
    if load_lane(seat, own) != 0 {
        return false;
    }
    load_drawn(seat) < MOST_NUMBERS
}

/// Draws a number for an empty batch, where the seat may. The part has the number.
pub fn begin(seat: &mut Seat<Stub>) -> Option<Stub>
    requires rest { AtRest (seat_state seat.old) }
    ensures some { IfSome result (λ part. InFlight (stub_meaning part) (seat_state seat.new)) }
    ensures none { IfNone result (AtRest (seat_state seat.new)) }
    ensures same { IsSameSeat seat.old seat.new }
    ensures place { (seat_view seat.new).place ≡ (seat_view seat.old).place }
{
    if !is_ready(seat) {
        return None;
    }
    let mut part = loose(0);
    let number = draw(seat, &part);
    part.number(number);
    Some(part)
}

/// Lands the part that a number was drawn for.
pub fn end(seat: &mut Seat<Stub>, part: Stub)
    requires flight { InFlight (stub_meaning part) (seat_state seat.old) }
    ensures rest { AtRest (seat_state seat.new) }
    ensures same { IsSameSeat seat.old seat.new }
    ensures place { (seat_view seat.new).place ≡ (seat_view seat.old).place }
{
    land(seat, part);
}

/// Writes one empty batch, and sweeps until the lane is free for it.
fn write_one<R: Wait>(rt: &R, seat: &mut Seat<Stub>)
    requires rest { AtRest (seat_state seat.old) }
    ensures rest { AtRest (seat_state seat.new) }
    ensures same { IsSameSeat seat.old seat.new }
    ensures place { (seat_view seat.new).place ≡ (seat_view seat.old).place }
{
    for _ in rt.forever() {
        if let Some(part) = begin(seat) {
            end(seat, part);
            return;
        }
        let _ = sweep(seat);
        thread::yield_now();
    }
    unreachable!()
}

/// Writes so many empty batches, one after the other.
pub fn write_many<'a, R: Wait>(rt: &R, seat: Seat<'a, Stub>, count: u32) -> Seat<'a, Stub>
    requires rest { AtRest (seat_state seat) }
    ensures rest { AtRest (seat_state result) }
    ensures same { IsSameSeat seat.entry result }
    ensures place { (seat_view result).place ≡ (seat_view seat.entry).place }
{
    let mut seat = seat;
    for _ in 0..count {
        write_one(rt, &mut seat);
    }
    seat
}

/// Writes so many empty batches and sweeps after each. It answers the mark of the last sweep.
pub fn write_swept(seat: &mut Seat<Stub>, count: u32) -> u64
    requires rest { AtRest (seat_state seat.old) }
    ensures rest { AtRest (seat_state seat.new) }
    ensures same { IsSameSeat seat.old seat.new }
    ensures place { (seat_view seat.new).place ≡ (seat_view seat.old).place }
{
    let mut mark = 0;
    for _ in 0..count {
        if let Some(part) = begin(seat) {
            end(seat, part);
        }
        mark = sweep(seat).unwrap_or(0);
    }
    mark
}
