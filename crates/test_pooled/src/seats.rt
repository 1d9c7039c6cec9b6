ghost use Rattle.std.specs.Prelude.{◌≡◌, ◌≤◌, IfSome, IfNone};
ghost use Rattle.fd_kinds.specs.History.{IsSmall};
ghost use Rattle.fd_part.specs.Parts.{part_meaning};
ghost use Rattle.fd_pool.specs.Pools.{pool_seats, pool_table};
ghost use Rattle.fd_pooled.specs.Pooling.{IsResting};
ghost use Rattle.fd_rule.specs.Seats.{IsSameSeat, seat_count, seat_state, seat_table};
ghost use Rattle.test_pooled.specs.Rests.{AreSeatsOf, AtPin, InFlight};

use crate::pools::{put_back, take};
use fd_compact::Compaction;
use fd_kinds::limits::MOST_NUMBERS;
use fd_kinds::{Batch, Held};
use fd_part::Part;
use fd_pins::{Pin, pin, unpin};
use fd_pool::{Passes, Pool, Sweep, drawn, list, ready, try_sweep};
use fd_pooled::compact_once;
use fd_rule::{Seat, draw, land};
use std::sync::Wait;

/// Sits down with the last of the passes.
pub fn sit<'a>(pool: &'a Pool<Part>, passes: &mut Passes) -> Option<Seat<'a, Part>>
    requires passes { AreSeatsOf pool.now passes.old }
    ensures passes { AreSeatsOf pool.now passes.new }
    ensures rest { IfSome result (λ seat. IsResting (seat_state seat)) }
    ensures table { IfSome result (λ seat. seat_table seat ≡ pool_table pool.now) }
    ensures seats { IfSome result (λ seat. seat_count seat ≡ pool_seats pool.now) }
{
    let pass = take(pool, passes)?;
    Some(pool.seat(pass))
}

/// Gets up: the pass comes to the others. False for want of memory.
pub fn stand<'a>(pool: &Pool<Part>, passes: &mut Passes, seat: Seat<'a, Part>) -> bool
    requires passes { AreSeatsOf pool.now passes.old }
    requires rest { IsResting (seat_state seat) }
    requires table { seat_table seat ≡ pool_table pool.now }
    requires seats { seat_count seat ≡ pool_seats pool.now }
    ensures passes { AreSeatsOf pool.now passes.new }
{
    put_back(pool, passes, seat.leave())
}

/// Draws a number for a batch, where the lane is empty. The part has the number.
pub fn begin<R: Wait>(rt: &R, seat: &mut Seat<Part>, batch: Batch) -> Option<Part>
    requires rest { IsResting (seat_state seat.old) }
    requires small { IsSmall batch.rows }
    ensures some { IfSome result (λ part. InFlight (part_meaning part) (seat_state seat.new)) }
    ensures none { IfNone result (IsResting (seat_state seat.new)) }
    ensures same { IsSameSeat seat.old seat.new }
{
    let mut part = match Part::fresh(batch) {
        Ok(part) => part,
        Err(_) => return None,
    };
    if ready(rt, seat).is_err() {
        return None;
    }
    if drawn(seat) >= MOST_NUMBERS {
        return None;
    }
    let number = draw(seat, &part);
    part.number(number);
    Some(part)
}

/// Lands the part that a number was drawn for.
pub fn end(seat: &mut Seat<Part>, part: Part)
    requires flight { InFlight (part_meaning part) (seat_state seat.old) }
    ensures rest { IsResting (seat_state seat.new) }
    ensures same { IsSameSeat seat.old seat.new }
{
    land(seat, part);
}

/// One sweep, which answers the mark. None where another seat has the turn, or for want of memory.
pub fn sweep(seat: &mut Seat<Part>) -> Option<u64>
    requires rest { IsResting (seat_state seat.old) }
    ensures rest { IsResting (seat_state seat.new) }
    ensures same { IsSameSeat seat.old seat.new }
{
    match try_sweep(seat) {
        Sweep::Swept { mark } => Some(mark),
        Sweep::Busy { holder: _ } => None,
        Sweep::NoMemory => None,
    }
}

/// Pins the mark.
pub fn pin_mark(seat: &mut Seat<Part>) -> Pin
    requires rest { IsResting (seat_state seat.old) }
    ensures pinned { AtPin result.w (seat_state seat.new) }
    ensures same { IsSameSeat seat.old seat.new }
{
    pin(seat)
}

/// The last number of the parts up to the pin. None for want of memory.
pub fn list_last<R: Wait>(rt: &R, seat: &mut Seat<Part>, pin: &Pin) -> Option<u64>
    requires pinned { AtPin pin.now.w (seat_state seat.old) }
    ensures pinned { AtPin pin.now.w (seat_state seat.new) }
    ensures same { IsSameSeat seat.old seat.new }
{
    match list(rt, seat, pin) {
        Ok(picked) => picked.as_slice().last().map(|placed| placed.part.hi()),
        Err(_) => None,
    }
}

/// Gives up the pin.
pub fn unpin_mark(seat: &mut Seat<Part>, pin: Pin)
    requires pinned { AtPin pin.w (seat_state seat.old) }
    ensures rest { IsResting (seat_state seat.new) }
    ensures same { IsSameSeat seat.old seat.new }
{
    unpin(seat, pin);
}

/// One compaction. None for want of memory.
pub fn compact<R: Wait>(rt: &R, seat: &mut Seat<Part>) -> Option<Compaction>
    requires rest { IsResting (seat_state seat.old) }
    ensures rest { IsResting (seat_state seat.new) }
    ensures same { IsSameSeat seat.old seat.new }
{
    compact_once(rt, seat).ok()
}
