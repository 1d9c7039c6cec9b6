ghost use Rattle.std.specs.Prelude.{◌≡◌};
ghost use Rattle.fd_rule.specs.View.{first};
ghost use Rattle.fd_shelf.specs.Books.{Shelved};
ghost use Rattle.fd_rule.specs.Seats.{base_seats, base_table, pass_seats, pass_table, pass_view};
ghost use Rattle.fd_rule.specs.Seats.{seat_state, seat_view};
ghost use Rattle.test_table.specs.Seats.{AtRest};

use fd_rule::{Base, Pass, Seat, split};
use stubs::Stub;

/// The seats of a table for four.
pub struct Four<'a> {
    pub keeper: Seat<'a, Stub>,
    pub compactor: Seat<'a, Stub>,
    pub early: Seat<'a, Stub>,
    pub late: Seat<'a, Stub>,
}

/// Splits three seats off the first.
pub fn four_seats<'a>(base: &'a Base<Stub>, pass: Pass) -> Four<'a>
    requires base { pass_table pass ≡ base_table base.now }
    requires count { pass_seats pass ≡ base_seats base.now }
    requires four { base_seats base.now ≡ 4 }
    requires first { (shelf : Shelved) × (pass_view pass ≡ first shelf 0) }
    ensures keeper { AtRest (seat_state result.keeper) }
    ensures number { (seat_view result.keeper).place.number ≡ 0 }
    ensures compactor { AtRest (seat_state result.compactor) }
    ensures early { AtRest (seat_state result.early) }
    ensures late { AtRest (seat_state result.late) }
{
    let mut keeper = Seat::enter(base, pass);
    let compactor = split(&mut keeper);
    let early = split(&mut keeper);
    let late = split(&mut keeper);
    Four {
        keeper,
        compactor,
        early,
        late,
    }
}
