ghost use Rattle.std.specs.Prelude.{◌≡◌, true, IfSome};
ghost use Rattle.fd_rule.specs.Seats.{base_seats, base_table, pass_seats, pass_table, pass_view};
ghost use Rattle.fd_rule.specs.Kinds.SeatJoin.{join_of};
ghost use Rattle.test_table.specs.Seats.{IsResting};

use crate::sweeps::sweep;
use crate::writes::is_ready;
use fd_rule::{Base, Pass, Seat, join};
use fd_shelf::Shelf;
use stubs::Stub;

/// Takes what has landed into the book, and answers one pass for both seats of a table for two.
/// None where another seat has the turn or a lane is filled.
fn join_both(base: &Base<Stub>, left: Pass, right: Pass) -> Option<Pass>
    requires left { pass_table left ≡ base_table base.now }
    requires right { pass_table right ≡ base_table base.now }
    requires seats { pass_seats left ≡ base_seats base.now }
    requires right_seats { pass_seats right ≡ base_seats base.now }
    requires left_rest { IsResting (pass_view left) }
    requires right_rest { IsResting (pass_view right) }
    ensures base { IfSome result (λ pass. pass_table pass ≡ base_table base.now) }
    ensures rest { IfSome result (λ pass. IsResting (pass_view pass)) }
    ensures empty { IfSome result (λ pass. (pass_view pass).draws.empty ≡ true) }
    ensures joined { IfSome result (λ pass.
        (pass_view pass).place
        ≡ (join_of (pass_view left) (pass_view right)).place) }
{
    let mut left = Seat::enter(base, left);
    let mut right = Seat::enter(base, right);
    let swept = sweep(&mut left);
    if swept.is_none() || !is_ready(&mut left) || !is_ready(&mut right) {
        return None;
    }
    join(&mut left, right);
    Some(left.leave())
}

/// Ends a table for two: all that has landed is in the shelf's book, and the mark is over it.
pub fn end_both(base: Base<Stub>, left: Pass, right: Pass) -> Option<Shelf<Stub>>
    requires two { base_seats base ≡ 2 }
    requires left { pass_table left ≡ base_table base }
    requires right { pass_table right ≡ base_table base }
    requires seats { pass_seats left ≡ base_seats base }
    requires right_seats { pass_seats right ≡ base_seats base }
    requires left_rest { IsResting (pass_view left) }
    requires right_rest { IsResting (pass_view right) }
    requires left_place { (pass_view left).place.number ≡ 0 }
    requires right_place { (pass_view right).place.number ≡ 1 }
{
    let all = join_both(&base, left, right)?;
    Some(base.close(all))
}
