ghost use Rattle.std.specs.Prelude.{◌≡◌, ◌<◌, ◌+◌, ◌∷◌, true};
ghost use Rattle.atomic_table.specs.Table.{rest};
ghost use Rattle.fd_kinds.specs.Stores.{Written};
ghost use Rattle.fd_rule.specs.Kinds.LaneClearance.{with_cleared};
ghost use Rattle.fd_rule.specs.Seats.{IsSameSeat, seat_count, seat_slots, seat_state, seat_view};
ghost use Rattle.fd_rule.specs.View.{laden};
ghost use Rattle.fd_rule.specs.declared.slot.SlotValue.TheVariants.{Empty};

use crate::plays::LaneClearance;
use crate::seat::Seat;
use fd_kinds::Held;
use fd_shelf::straggler_laws;

/// Empties a lane whose part was taken out: the batch waits in the book in hand. The shelf in hand
/// takes the part by `Shelf::admit`. It takes no memory.
pub fn clear_lane<P: Held>(seat: &mut Seat<P>, lane: u32)
    requires turn { (seat_view seat.old).turn.holds ≡ true }
    requires hand { (batch : Written) × ((seat_view seat.old).turn.hand ≡ laden lane batch) }
    requires slots { seat_slots seat.old ≡ (1 + lane, Empty) ∷ rest (seat_slots seat.old) }
    requires inside { lane < (seat_count seat.old) }
    ensures me { (batch : Written)
        → (seat_view seat.old).turn.hand ≡ laden lane batch
        → (seat_state seat.new)
        ≡ (with_cleared lane batch (seat_view seat.old), rest (seat_slots seat.old)) }
    ensures same { IsSameSeat seat.old seat.new }
{
    straggler_laws();
    seat.board
        .shared
        .store::<LaneClearance>(&mut seat.inner, 2 * lane as usize + 5, 0);
}
