ghost use Rattle.std.specs.Prelude.{◌≡◌, ◌≤◌, map};
ghost use Rattle.fd_rule.specs.Seats.{IsSameSeat, seat_state, seat_view};
ghost use Rattle.stubs.specs.Stubs.{stub_meaning};
ghost use Rattle.test_pool.specs.Rests.{AtRest, IsRunOf};

use crate::lists::last_number;
use fd_kinds::Held;
use fd_pins::{Limit, limit, raise_floor};
use fd_pool::{run_upto, swap};
use fd_rule::Seat;
use fd_shelf::InBlock;
use std::sync::Wait;
use stubs::Stub;

/// Raises the floor to the limit of a scan.
fn lift(seat: &mut Seat<Stub>) -> Limit
    requires rest { AtRest (seat_state seat.old) }
    ensures rest { AtRest (seat_state seat.new) }
    ensures raised { result.l ≤ (seat_view seat.new).pinning.raised }
    ensures same { IsSameSeat seat.old seat.new }
{
    let least = limit(seat);
    raise_floor(seat, &least);
    least
}

/// The limit of a scan.
pub fn limit_of(seat: &mut Seat<Stub>) -> u64
    requires rest { AtRest (seat_state seat.old) }
    ensures rest { AtRest (seat_state seat.new) }
    ensures same { IsSameSeat seat.old seat.new }
{
    let Limit { l } = lift(seat);
    l
}

/// Puts one sealed part in place of a run, and answers its numbers.
fn put_run<R: Wait>(
    rt: &R,
    seat: &mut Seat<Stub>,
    least: &Limit,
    parts: &[InBlock<Stub>],
) -> Option<(u64, u64)>
    requires rest { AtRest (seat_state seat.old) }
    requires raised { least.now.l ≤ (seat_view seat.old).pinning.raised }
    requires run { IsRunOf
        (seat_view seat.old).seen.history
        (map (λ i. stub_meaning i.part) parts.now) }
    ensures rest { AtRest (seat_state seat.new) }
    ensures same { IsSameSeat seat.old seat.new }
{
    let hi = last_number(parts);
    let [first, ..] = parts else {
        return None;
    };
    let lo = first.part.lo();
    if least.l < hi {
        return None;
    }
    let part = Stub {
        lo,
        hi,
        sealed: true,
    };
    match swap(rt, seat, least, first.block, lo, hi, part) {
        Ok(()) => Some((lo, hi)),
        Err(_) => None,
    }
}

/// Seals the loose parts up to the limit of a scan as one, and answers its numbers. None where
/// there is no such part, or for want of memory.
pub fn compact_one<R: Wait>(rt: &R, seat: &mut Seat<Stub>) -> Option<(u64, u64)>
    requires rest { AtRest (seat_state seat.old) }
    ensures rest { AtRest (seat_state seat.new) }
    ensures same { IsSameSeat seat.old seat.new }
{
    let least = lift(seat);
    match run_upto(rt, seat, &least) {
        Ok(picked) => put_run(rt, seat, &least, picked.as_slice()),
        Err(_) => None,
    }
}
