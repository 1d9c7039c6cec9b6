//! Sweeps until the mark reaches a number.
ghost use Rattle.std.specs.Prelude.{◌≡◌, ℕ, ◌≤◌, true, false, IfOk, OnOk, OnErr};
ghost use Rattle.fd_pool.specs.Kept.{Kept};
ghost use Rattle.fd_pooled.specs.Pooling.{IsResting};
ghost use Rattle.fd_pooled.specs.Steps.{HasLooked, HasReached, Looks};
ghost use Rattle.fd_rule.specs.Seats.{IsSameSeat, seat_count, seat_state, seat_view};

use fd_kinds::{Held, NoMemory};
use fd_pool::{Sweep, try_sweep, watermark};
use fd_rule::Seat;
use fd_shelf::book_laws;
use std::sync::Wait;
use std::thread;

/// One sweep, and the mark that is loaded after it.
fn sweep_and_look<P: Held>(seat: &mut Seat<P>) -> Result<u64, NoMemory>
    requires rest { IsResting (seat_state seat.old) }
    ensures ok { IfOk result (λ mark.
        HasLooked (seat_count seat.old) (seat_view seat.old) mark (seat_view seat.new)) }
    ensures err { OnErr result (Kept (seat_view seat.old) (seat_view seat.new)) }
    ensures rest { IsResting (seat_state seat.new) }
    ensures same { IsSameSeat seat.old seat.new }
{
    book_laws();
    match try_sweep(seat) {
        Sweep::NoMemory => Err(NoMemory),
        Sweep::Swept { mark: _ } => Ok(watermark(seat)),
        Sweep::Busy { holder: _ } => Ok(watermark(seat)),
    }
}

/// Sweeps once, and again for as long as the mark that is loaded after it is below `after`.
pub(crate) fn sweep_upto<R: Wait, P: Held>(
    rt: &R,
    seat: &mut Seat<P>,
    after: u64,
) -> Result<(), NoMemory>
    requires rest { IsResting (seat_state seat.old) }
    ensures ok { OnOk result (HasReached
        (seat_count seat.old)
        (seat_view seat.old)
        after
        (seat_view seat.new)) }
    ensures err { OnErr result (Looks (seat_view seat.old) (seat_view seat.new)) }
    ensures rest { IsResting (seat_state seat.new) }
    ensures same { IsSameSeat seat.old seat.new }
{
    for _ in rt.forever() {
        match sweep_and_look(seat) {
            Ok(mark) => {
                if mark >= after {
                    return Ok(());
                }
            }
            Err(refused) => return Err(refused),
        }
        thread::yield_now();
    }
    unreachable!()
}
