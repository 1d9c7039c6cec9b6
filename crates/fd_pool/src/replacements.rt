//! One sealed part in place of others.
ghost use Rattle.std.specs.Prelude.{◌≡◌, ◌≤◌, [], OnOk, IfErr};
ghost use Rattle.fd_pool.specs.Kept.{IsFree};
ghost use Rattle.fd_pool.specs.Lists.{SeenRows};
ghost use Rattle.fd_pool.specs.Swaps.{HasRefused, HasSwapped, Stands};
ghost use Rattle.fd_pool.specs.Turns.{InHand, Turned};
ghost use Rattle.fd_rule.specs.Kinds.TurnReturn.{with_given};
ghost use Rattle.fd_rule.specs.Seats.{IsSameSeat, seat_state, seat_view};
ghost use Rattle.fd_rule.specs.View.{Given};
ghost use Rattle.fd_shelf.specs.Books.{Book, IsSealed};
ghost use Rattle.fd_shelf.specs.Histories.{hist};
ghost use Rattle.fd_shelf.specs.Replacement.{HandsBack, replaced};

use crate::turns::{give_up, wait_for_turn};
use fd_kinds::Held;
use fd_pins::Limit;
use fd_rule::{Seat, give_turn};
use fd_shelf::{NotReplaced, Shelf, book_laws};
use std::sync::Wait;

/// Puts the part in place of the loose parts of its range; the turn is given back.
fn swap_taken<P: Held>(
    seat: &mut Seat<P>,
    shelf: Shelf<P>,
    block: u64,
    lo: u64,
    hi: u64,
    part: P,
) -> Result<(), NotReplaced<P>>
    requires hand { InHand shelf (seat_state seat.old) }
    requires sealed { IsSealed (P.means part) }
    requires lo { (P.means part).lo ≡ lo }
    requires hi { (P.means part).hi ≡ hi }
    requires rows { SeenRows (hist shelf.book shelf.mark) (P.means part) }
    requires floor { hi ≤ (seat_view seat.old).pinning.raised }
    ensures ok { OnOk result (Stands block lo hi (P.means part) shelf) }
    ensures me { OnOk result ((seat_state seat.new)
        ≡ (with_given (replaced (P.means part) shelf).book (seat_view seat.old), [])) }
    ensures err { IfErr result (λ why.
        HandsBack shelf.book block lo hi part why
        × ((seat_state seat.new) ≡ (with_given shelf.book (seat_view seat.old), []))) }
    ensures same { IsSameSeat seat.old seat.new }
{
    let mut shelf = shelf;
    shelf.is_in_order();
    shelf.history_laws();
    book_laws();
    match shelf.replace(block, lo, hi, part) {
        Ok(()) => {
            shelf.is_in_order();
            give_turn(seat, shelf);
            Ok(())
        }
        Err(why) => {
            give_up(seat, shelf);
            Err(why)
        }
    }
}

/// Puts a sealed part in place of the loose parts that hold the numbers from `lo` to `hi` in the
/// active block `block`. The part has the rows that the seat has seen there, and the seat has
/// raised the floor to the limit, which is not below `hi`: so no pin stands below `hi`. It waits
/// for the turn.
pub fn swap<R: Wait, P: Held>(
    rt: &R,
    seat: &mut Seat<P>,
    limit: &Limit,
    block: u64,
    lo: u64,
    hi: u64,
    part: P,
) -> Result<(), NotReplaced<P>>
    requires free { IsFree (seat_state seat.old) }
    requires sealed { IsSealed (P.means part) }
    requires lo { (P.means part).lo ≡ lo }
    requires hi { (P.means part).hi ≡ hi }
    requires rows { SeenRows (seat_view seat.old).seen.history (P.means part) }
    requires limit { hi ≤ limit.now.l }
    requires floor { limit.now.l ≤ (seat_view seat.old).pinning.raised }
    ensures ok { OnOk result (
        (g : Given)
        × Turned (seat_view seat.old) g (seat_view seat.new)
        × HasSwapped block lo hi (P.means part) g) }
    ensures err { IfErr result (λ why.
        (g : Given)
        × Turned (seat_view seat.old) g (seat_view seat.new)
        × HasRefused (seat_view seat.old) block lo hi part why g) }
    ensures free { IsFree (seat_state seat.new) }
    ensures same { IsSameSeat seat.old seat.new }
{
    let _ = limit;
    let shelf = wait_for_turn(rt, seat);
    shelf.is_in_order();
    swap_taken(seat, shelf, block, lo, hi, part)
}
