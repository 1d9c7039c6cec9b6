ghost use Rattle.std.specs.Prelude.{◌≡◌};
ghost use Rattle.fd_pins.specs.Scans.{IsScan};
ghost use Rattle.fd_rule.specs.Kinds.FloorRaise.{MayRaiseFloor, with_floor};
ghost use Rattle.fd_rule.specs.Seats.{IsSameSeat, seat_count, seat_slots, seat_state, seat_view};
ghost use Rattle.fd_rule.specs.View.{idle};

use crate::Limit;
use fd_kinds::Held;
use fd_rule::Seat;

/// The least of the mark, which is loaded first, and of the pin words of all seats. It takes no
/// memory.
pub fn limit<P: Held>(seat: &mut Seat<P>) -> Limit
    requires idles { (seat_view seat.old).pinning.state ≡ idle }
    ensures scan { IsScan
        (seat_count seat.old)
        (seat_view seat.old)
        result.l
        (seat_view seat.new) }
    ensures slots { seat_slots seat.new ≡ seat_slots seat.old }
    ensures same { IsSameSeat seat.old seat.new }
{
    let count = seat.count();
    let mut l = fd_rule::load_mark(seat, true);
    for at in 0..count {
        let _ = at;
        l = l.min(fd_rule::scan_pin(seat));
    }
    Limit { l }
}

/// Raises the floor to the limit of the scan that the seat has finished: numbers up to it may be
/// sealed. It takes no memory.
pub fn raise_floor<P: Held>(seat: &mut Seat<P>, limit: &Limit)
    requires may { MayRaiseFloor
        (seat_count seat.old)
        limit.now.l
        (seat_view seat.old).pinning }
    ensures me { seat_state seat.new
        ≡ (with_floor limit.now.l (seat_view seat.old), seat_slots seat.old) }
    ensures same { IsSameSeat seat.old seat.new }
{
    fd_rule::raise_floor(seat, limit.l);
}
