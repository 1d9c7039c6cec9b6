//! A batch gets a number and lands.
ghost use Rattle.std.specs.Prelude.{◌≡◌, true, false, IfOk, IfErr};
ghost use Rattle.fd_kinds.specs.History.{IsSmall};
ghost use Rattle.fd_kinds.specs.Parts.{rows_of};
ghost use Rattle.fd_pool.specs.Kept.{IsFree};
ghost use Rattle.fd_pool.specs.Writes.{Took, WasSpent};
ghost use Rattle.fd_rule.specs.Seats.{IsSameSeat, seat_state, seat_view};

use fd_kinds::Held;
use fd_kinds::limits::MOST_NUMBERS;
use fd_rule::{Seat, draw, land, load_drawn};

/// The number that a batch got.
#[derive(Debug, Drop, Clone, Copy, PartialEq, Eq)]
pub struct Receipt {
    pub number: u64,
}

/// No number is left to draw: so many were drawn. The part comes back.
#[derive(Drop)]
pub struct Spent<P> {
    pub drawn: u64,
    pub part: P,
}

/// Draws a number for the part and lands it in the own lane, where it stays until somebody sweeps.
/// It takes no memory.
pub fn draw_and_land<P: Held>(seat: &mut Seat<P>, part: P) -> Result<Receipt, Spent<P>>
    requires free { IsFree (seat_state seat.old) }
    requires empty { (seat_view seat.old).draws.empty ≡ true }
    requires unsealed { (P.means part).sealed ≡ false }
    requires unnumbered { (P.means part).lo ≡ 0 }
    requires small { IsSmall (rows_of (P.means part).rows) }

    // The drawn number that was loaded is below `MOST_NUMBERS`, ..
    ensures ok { IfOk result (λ receipt.
        Took
        (seat_view seat.old)
        (rows_of (P.means part).rows)
        receipt.number
        (seat_view seat.new)) }

    // .. or it is not, and nothing was drawn.
    ensures err { IfErr result (λ spent.
        WasSpent (seat_view seat.old) spent.drawn (seat_view seat.new)) }
    ensures part { IfErr result (λ spent. spent.part ≡ part) }
    ensures free { IsFree (seat_state seat.new) }
    ensures same { IsSameSeat seat.old seat.new }
{
    let drawn = load_drawn(seat);
    if drawn >= MOST_NUMBERS {
        return Err(Spent { drawn, part });
    }
    let number = draw(seat, &part);
    let mut part = part;
    part.number(number);
    land(seat, part);
    Ok(Receipt { number })
}
