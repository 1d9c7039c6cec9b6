ghost use Rattle.fd_rule.specs.Kinds.TurnTry.{HasTried};
ghost use Rattle.fd_rule.specs.Seats.{IsSameSeat, seat_state};

use crate::plays::TurnTry;
use crate::seat::Seat;
use crate::slot::SlotValue;
use crate::turn::Turn;
use fd_kinds::Held;
use fd_shelf::book_laws;

/// Takes the turn and the shelf with it, or answers who holds it. It takes no memory.
pub fn take_turn<P: Held>(seat: &mut Seat<P>) -> Turn<P>
    ensures tried { HasTried (seat_state seat.old) (seat_state seat.new) result }
    ensures same { IsSameSeat seat.old seat.new }
{
    book_laws();
    let own = seat.number as u64 + 1;
    let found = seat
        .board
        .shared
        .compare_exchange::<TurnTry>(&mut seat.inner, 2, 0, own);
    if found != 0 {
        return Turn::Held { holder: found - 1 };
    }
    match seat
        .board
        .shared
        .exchange(&mut seat.inner, 0, SlotValue::Empty)
    {
        SlotValue::Home(shelf) => Turn::Taken(shelf),
        _ => unreachable!(),
    }
}
