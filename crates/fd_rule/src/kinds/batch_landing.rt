ghost use Rattle.std.specs.Prelude.{◌≡◌, ◌+◌, ◌∷◌};
ghost use Rattle.atomic_table.specs.Table.{rest};
ghost use Rattle.fd_rule.specs.Kinds.BatchLanding.{MayLand, with_landed};
ghost use Rattle.fd_rule.specs.Seats.{IsSameSeat, seat_number, seat_slots, seat_state, seat_view};
ghost use Rattle.fd_rule.specs.declared.slot.SlotValue.TheVariants.{Empty};

use crate::plays::BatchLanding;
use crate::seat::Seat;
use crate::slot::SlotValue;
use fd_kinds::Held;

/// Lands the part that has the number in flight: it lies in the seat's lane until a holder of the
/// turn takes it into the book. It takes no memory.
pub fn land<P: Held>(seat: &mut Seat<P>, part: P)
    requires may { MayLand (P.means part) (seat_view seat.old).draws }
    requires slots { seat_slots seat.old
        ≡ (1 + seat_number seat.old, Empty) ∷ rest (seat_slots seat.old) }
    ensures me { seat_state seat.new
        ≡ (with_landed (seat_view seat.old), rest (seat_slots seat.old)) }
    ensures same { IsSameSeat seat.old seat.new }
{
    let number = part.lo();
    let slot = 1 + seat.number as usize;
    seat.board
        .shared
        .exchange(&mut seat.inner, slot, SlotValue::Landed(part));
    let word = 2 * seat.number as usize + 5;
    seat.board
        .shared
        .store::<BatchLanding>(&mut seat.inner, word, number);
}
