//! Until the own lane is empty.
ghost use Rattle.std.specs.Prelude.{◌≡◌, true, OnOk};
ghost use Rattle.fd_pool.specs.Kept.{IsFree, Kept};
ghost use Rattle.fd_rule.specs.Seats.{IsSameSeat, seat_state, seat_view};

use crate::sweeps::{Sweep, try_sweep};
use fd_kinds::{Held, NoMemory};
use fd_rule::{Seat, load_lane};
use std::sync::Wait;
use std::thread;

/// Whether the own lane is empty.
fn is_empty<P: Held>(seat: &mut Seat<P>) -> bool
    requires free { IsFree (seat_state seat.old) }
    ensures empty { result ≡ true → (seat_view seat.new).draws.empty ≡ true }
    ensures kept { Kept (seat_view seat.old) (seat_view seat.new) }
    ensures free { IsFree (seat_state seat.new) }
    ensures same { IsSameSeat seat.old seat.new }
{
    let own = seat.number();
    load_lane(seat, own) == 0
}

/// Whether there was memory for a sweep.
#[tactic(auto, using(crate::proofs::TurnSteps::kept_refused))]
fn has_memory<P: Held>(seat: &mut Seat<P>) -> bool
    requires free { IsFree (seat_state seat.old) }
    ensures kept { Kept (seat_view seat.old) (seat_view seat.new) }
    ensures free { IsFree (seat_state seat.new) }
    ensures same { IsSameSeat seat.old seat.new }
{
    match try_sweep(seat) {
        Sweep::Swept { mark: _ } => true,
        Sweep::Busy { holder: _ } => true,
        Sweep::NoMemory => false,
    }
}

/// Waits until the own lane is empty, and sweeps meanwhile.
pub fn ready<R: Wait, P: Held>(rt: &R, seat: &mut Seat<P>) -> Result<(), NoMemory>
    requires free { IsFree (seat_state seat.old) }
    ensures empty { OnOk result ((seat_view seat.new).draws.empty ≡ true) }
    ensures kept { Kept (seat_view seat.old) (seat_view seat.new) }
    ensures free { IsFree (seat_state seat.new) }
    ensures same { IsSameSeat seat.old seat.new }
{
    for _ in rt.forever() {
        if is_empty(seat) {
            return Ok(());
        }
        if !has_memory(seat) {
            return Err(NoMemory);
        }
        thread::yield_now();
    }
    unreachable!()
}
