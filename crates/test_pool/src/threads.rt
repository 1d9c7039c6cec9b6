ghost use Rattle.std.specs.Prelude.{◌≡◌};
ghost use Rattle.fd_rule.specs.Seats.{IsSameSeat, seat_state};
ghost use Rattle.test_pool.specs.Rests.{AtRest, IsSeatOf};

use crate::lists::read_one;
use crate::runs::compact_one;
use crate::writes::write_one;
use fd_pool::Pool;
use fd_rule::{Pass, Seat};
use std::sync::Wait;
use std::thread::{Threads, join};
use stubs::Stub;

/// Writes so many empty batches.
fn write_many<R: Wait>(rt: &R, seat: &mut Seat<Stub>, count: u32)
    requires rest { AtRest (seat_state seat.old) }
    ensures rest { AtRest (seat_state seat.new) }
    ensures same { IsSameSeat seat.old seat.new }
{
    for _ in 0..count {
        let _ = write_one(rt, seat);
    }
}

/// Reads so often, and compacts after each.
fn compact_many<R: Wait>(rt: &R, seat: &mut Seat<Stub>, count: u32)
    requires rest { AtRest (seat_state seat.old) }
    ensures rest { AtRest (seat_state seat.new) }
    ensures same { IsSameSeat seat.old seat.new }
{
    for _ in 0..count {
        let _ = read_one(rt, seat);
        let _ = compact_one(rt, seat);
    }
}

/// Sits down, writes so many empty batches, and gets up again.
fn write_at<R: Wait>(rt: &R, pool: &Pool<Stub>, pass: Pass, count: u32) -> Pass
    requires pass { IsSeatOf pool.now pass }
    ensures pass { IsSeatOf pool.now result }
{
    let mut seat = pool.seat(pass);
    write_many(rt, &mut seat, count);
    seat.leave()
}

/// Sits down, reads and compacts so often, and gets up again.
fn compact_at<R: Wait>(rt: &R, pool: &Pool<Stub>, pass: Pass, count: u32) -> Pass
    requires pass { IsSeatOf pool.now pass }
    ensures pass { IsSeatOf pool.now result }
{
    let mut seat = pool.seat(pass);
    compact_many(rt, &mut seat, count);
    seat.leave()
}

/// Two seats write so many empty batches each, in two threads.
pub fn write_both<R: Threads + Wait + Sync>(
    rt: &R,
    pool: &Pool<Stub>,
    left: Pass,
    right: Pass,
    count: u32,
) -> (Pass, Pass)
    requires left { IsSeatOf pool.now left }
    requires right { IsSeatOf pool.now right }
    ensures left { IsSeatOf pool.now result.0 }
    ensures right { IsSeatOf pool.now result.1 }
{
    join(
        rt,
        || write_at(rt, pool, left, count),
        || write_at(rt, pool, right, count),
    )
}

/// One seat writes so many empty batches, while another reads and compacts.
pub fn compact_beside<R: Threads + Wait + Sync>(
    rt: &R,
    pool: &Pool<Stub>,
    writer: Pass,
    compactor: Pass,
    count: u32,
) -> (Pass, Pass)
    requires writer { IsSeatOf pool.now writer }
    requires compactor { IsSeatOf pool.now compactor }
    ensures writer { IsSeatOf pool.now result.0 }
    ensures compactor { IsSeatOf pool.now result.1 }
{
    join(
        rt,
        || write_at(rt, pool, writer, count),
        || compact_at(rt, pool, compactor, count),
    )
}
