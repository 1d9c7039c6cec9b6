ghost use Rattle.std.specs.Prelude.{◌≡◌, ◌≤◌, ◌<◌};
ghost use Rattle.fd_rule.specs.Lists.{In};
ghost use Rattle.fd_rule.specs.View.{idle, settled};
ghost use Rattle.fd_rule.specs.Seats.{IsSameSeat, seat_count, seat_state, seat_view};
ghost use Rattle.test_table.specs.Seats.{AtRest};

use fd_rule::{Seat, announce, arrive, load_mark, raise_floor, scan_pin, settle};
use stubs::Stub;

/// Pins the mark.
pub fn pin(seat: &mut Seat<Stub>) -> u64
    requires idles { (seat_view seat.old).pinning.state ≡ idle }
    ensures pinned { (seat_view seat.new).pinning.state ≡ settled result }
    ensures loaded { In result (seat_view seat.new).seen.marks }
    ensures same { IsSameSeat seat.old seat.new }
    ensures place { (seat_view seat.new).place ≡ (seat_view seat.old).place }
{
    arrive(seat);
    let mark = load_mark(seat, false);
    settle(seat, mark);
    mark
}

/// The least of the mark and all pins.
pub fn limit(seat: &mut Seat<Stub>) -> u64
    ensures rest { AtRest (seat_state seat.old) → AtRest (seat_state seat.new) }
    ensures limit { (seat_view seat.new).pinning.limit ≡ result }
    ensures finished { (seat_view seat.new).pinning.next ≡ seat_count seat.old }
    ensures same { IsSameSeat seat.old seat.new }
    ensures place { (seat_view seat.new).place ≡ (seat_view seat.old).place }
{
    let count = seat.count();
    let mut limit = load_mark(seat, true);
    for at in 0..count {
        let _ = at;
        limit = limit.min(scan_pin(seat));
    }
    limit
}

/// Raises the floor to the limit.
pub fn lift(seat: &mut Seat<Stub>) -> u64
    ensures raised { result ≤ (seat_view seat.new).pinning.raised }
    ensures rest { AtRest (seat_state seat.old) → AtRest (seat_state seat.new) }
    ensures same { IsSameSeat seat.old seat.new }
    ensures place { (seat_view seat.new).place ≡ (seat_view seat.old).place }
{
    let least = limit(seat);
    raise_floor(seat, least);
    least
}

/// Seat 0 reports all numbers up to the mark as synced.
pub fn report(seat: &mut Seat<Stub>) -> u64
    requires number { (seat_view seat.old).place.number ≡ 0 }
    ensures same { IsSameSeat seat.old seat.new }
    ensures place { (seat_view seat.new).place ≡ (seat_view seat.old).place }
{
    let mark = load_mark(seat, false);
    announce(seat, mark);
    mark
}
