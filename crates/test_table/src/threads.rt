ghost use Rattle.std.specs.Prelude.{◌≡◌, []};
ghost use Rattle.fd_rule.specs.Seats.{base_seats, base_table, pass_seats, pass_table, pass_view};
ghost use Rattle.test_table.specs.Seats.{IsResting};

use crate::writes::write_many;
use fd_rule::{Base, Pass, Seat};
use std::sync::Wait;
use std::thread::{Threads, join};
use stubs::Stub;

/// Sits down, writes so many empty batches, and gets up again.
fn write_at<R: Wait>(rt: &R, base: &Base<Stub>, pass: Pass, count: u32) -> Pass
    requires base { pass_table pass ≡ base_table base.now }
    requires seats { pass_seats pass ≡ base_seats base.now }
    requires rest { IsResting (pass_view pass) }
    ensures base { pass_table result ≡ base_table base.now }
    ensures seats { pass_seats result ≡ base_seats base.now }
    ensures rest { IsResting (pass_view result) }
    ensures place { (pass_view result).place ≡ (pass_view pass).place }
{
    let seat = write_many(rt, Seat::enter(base, pass), count);
    seat.leave()
}

/// Two seats write so many empty batches each, in two threads.
pub fn write_both<R: Threads + Wait + Sync>(
    rt: &R,
    base: &Base<Stub>,
    left: Pass,
    right: Pass,
    count: u32,
) -> (Pass, Pass)
    requires left { pass_table left ≡ base_table base.now }
    requires right { pass_table right ≡ base_table base.now }
    requires seats { pass_seats left ≡ base_seats base.now }
    requires right_seats { pass_seats right ≡ base_seats base.now }
    requires left_rest { IsResting (pass_view left) }
    requires right_rest { IsResting (pass_view right) }
    ensures left { pass_table result.0 ≡ base_table base.now }
    ensures right { pass_table result.1 ≡ base_table base.now }
    ensures seats { pass_seats result.0 ≡ base_seats base.now }
    ensures right_seats { pass_seats result.1 ≡ base_seats base.now }
    ensures left_rest { IsResting (pass_view result.0) }
    ensures right_rest { IsResting (pass_view result.1) }
    ensures left_place { (pass_view result.0).place ≡ (pass_view left).place }
    ensures right_place { (pass_view result.1).place ≡ (pass_view right).place }
{
    join(
        rt,
        || write_at(rt, base, left, count),
        || write_at(rt, base, right, count),
    )
}
