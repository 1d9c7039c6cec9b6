ghost use Rattle.std.specs.Prelude.{◌≡◌, ◌<◌, ◌+◌, ◌^◌, ◌∷◌, length};
ghost use Rattle.fd_kinds.specs.History.{IsSmall};
ghost use Rattle.fd_kinds.specs.Parts.{rows_of};
ghost use Rattle.fd_rule.specs.Kinds.NumberDraw.{MayDraw, with_number};
ghost use Rattle.fd_rule.specs.Lists.{Tops};
ghost use Rattle.fd_rule.specs.Seats.{IsSameSeat, seat_number, seat_slots, seat_state, seat_view};
ghost use Rattle.fd_rule.specs.declared.slot.SlotValue.TheVariants.{Empty};

use crate::plays::{Drawn, NumberDraw};
use crate::seat::Seat;
use fd_kinds::Held;
use fd_shelf::book_laws;
use std::marker::Brand;

fn draw_for<P: Held, B: Drawn>(seat: &mut Seat<P>, part: &P) -> u64
    requires batch { B.rows ≡ rows_of (P.means part.now).rows }
    requires small { IsSmall (rows_of (P.means part.now).rows) }
    requires may { MayDraw (seat_view seat.old).draws }
    ensures me { seat_state seat.new
        ≡ (
          with_number result (rows_of (P.means part.now).rows) (seat_view seat.old),
          (1 + seat_number seat.old, Empty) ∷ (seat_slots seat.old),
        ) }
    ensures some { 0 < result }
    ensures bounded { result < 2 ^ 63 }
    ensures above { Tops result (seat_view seat.old).draws.own }
    ensures unseen { length (seat_view seat.old).seen.history < result }
    ensures same { IsSameSeat seat.old seat.new }
{
    let _ = part;
    book_laws();
    seat.board
        .shared
        .fetch_add::<NumberDraw<B>>(&mut seat.inner, 0, 1)
        + 1
}

/// Draws the next number for the rows of a part. The seat has the number in flight until `land`
/// takes the part; from here on nothing may fail. It takes no memory.
pub fn draw<P: Held>(seat: &mut Seat<P>, part: &P) -> u64
    requires small { IsSmall (rows_of (P.means part.now).rows) }
    requires may { MayDraw (seat_view seat.old).draws }
    ensures me { seat_state seat.new
        ≡ (
          with_number result (rows_of (P.means part.now).rows) (seat_view seat.old),
          (1 + seat_number seat.old, Empty) ∷ (seat_slots seat.old),
        ) }
    ensures some { 0 < result }
    ensures bounded { result < 2 ^ 63 }
    ensures above { Tops result (seat_view seat.old).draws.own }
    ensures unseen { length (seat_view seat.old).seen.history < result }
    ensures same { IsSameSeat seat.old seat.new }
{
    draw_for::<P, Brand>(seat, part)
}
