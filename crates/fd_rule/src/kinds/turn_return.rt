ghost use Rattle.std.specs.Prelude.{◌≡◌, ◌∷◌, true};
ghost use Rattle.atomic_table.specs.Table.{rest};
ghost use Rattle.fd_rule.specs.Kinds.TurnReturn.{MayReturn, with_given};
ghost use Rattle.fd_rule.specs.Lists.{AllAsDrawn, AllHeld};
ghost use Rattle.fd_rule.specs.Seats.{IsSameSeat, seat_slots, seat_state, seat_view};
ghost use Rattle.fd_rule.specs.declared.slot.SlotValue.TheVariants.{Empty};

use crate::plays::TurnReturn;
use crate::seat::Seat;
use crate::slot::SlotValue;
use fd_kinds::Held;
use fd_shelf::Shelf;

/// Gives the turn back, and the shelf with it. It takes no memory.
pub fn give_turn<P: Held>(seat: &mut Seat<P>, shelf: Shelf<P>)
    requires may { MayReturn shelf (seat_view seat.old) }
    requires slots { seat_slots seat.old ≡ (0, Empty) ∷ rest (seat_slots seat.old) }
    ensures me { seat_state seat.new
        ≡ (with_given shelf.book (seat_view seat.old), rest (seat_slots seat.old)) }

    // Where the seat knows that its lane is empty, what it landed is in the book.
    ensures held { (seat_view seat.old).draws.empty ≡ true
        → AllHeld
        (seat_view seat.old).draws.flight
        shelf.book
        (seat_view seat.old).draws.own }

    // What the seat drew stands there with its rows, where it stands there.
    ensures drawn { AllAsDrawn shelf.book (seat_view seat.old).draws.own }
    ensures same { IsSameSeat seat.old seat.new }
{
    shelf.is_in_order();
    seat.board
        .shared
        .exchange(&mut seat.inner, 0, SlotValue::Home(shelf));
    seat.board.shared.store::<TurnReturn>(&mut seat.inner, 2, 0);
}
