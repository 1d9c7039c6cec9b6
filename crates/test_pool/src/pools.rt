ghost use Rattle.std.specs.Prelude.{◌≡◌, ◌≤◌, IfSome};
ghost use Rattle.fd_pool.specs.Pools.{pool_seats, pool_table};
ghost use Rattle.fd_rule.specs.Seats.{seat_count, seat_state, seat_table};
ghost use Rattle.fd_rule.specs.declared.limits.TheConstants.{MOST_SEATS};
ghost use Rattle.test_pool.specs.Rests.{AreSeatsOf, AtRest, IsSeatOf};

use fd_pool::{NotFinished, Passes, Pool, Started};
use fd_rule::{Pass, Seat};
use fd_shelf::Shelf;
use std::alloc::Global;
use std::sync::Wait;
use stubs::Stub;

/// A pool over an empty shelf.
pub fn open(alloc: Global, seats: u32) -> Option<Started<Stub>>
    requires seats { (3 ≤ seats) × (seats ≤ MOST_SEATS) }
    ensures { IfSome result (λ started. AreSeatsOf started.pool started.passes) }
{
    match Pool::start(alloc, Shelf::new(alloc), 0, seats) {
        Ok(started) => Some(started),
        Err(_) => None,
    }
}

/// Takes the last of the passes.
pub fn take(pool: &Pool<Stub>, passes: &mut Passes) -> Option<Pass>
    requires passes { AreSeatsOf pool.now passes.old }
    ensures passes { AreSeatsOf pool.now passes.new }
    ensures pass { IfSome result (λ pass. IsSeatOf pool.now pass) }
{
    passes.pop()
}

/// Puts a pass to the others. False for want of memory.
pub fn put_back(pool: &Pool<Stub>, passes: &mut Passes, pass: Pass) -> bool
    requires passes { AreSeatsOf pool.now passes.old }
    requires pass { IsSeatOf pool.now pass }
    ensures passes { AreSeatsOf pool.now passes.new }
{
    passes.push(pass).is_ok()
}

/// Sits down with the last of the passes.
pub fn sit<'a>(pool: &'a Pool<Stub>, passes: &mut Passes) -> Option<Seat<'a, Stub>>
    requires passes { AreSeatsOf pool.now passes.old }
    ensures passes { AreSeatsOf pool.now passes.new }
    ensures rest { IfSome result (λ seat. AtRest (seat_state seat)) }
    ensures table { IfSome result (λ seat. seat_table seat ≡ pool_table pool.now) }
    ensures seats { IfSome result (λ seat. seat_count seat ≡ pool_seats pool.now) }
{
    let pass = take(pool, passes)?;
    Some(pool.seat(pass))
}

/// Gets up: the pass comes to the others. False for want of memory.
pub fn stand<'a>(pool: &Pool<Stub>, passes: &mut Passes, seat: Seat<'a, Stub>) -> bool
    requires passes { AreSeatsOf pool.now passes.old }
    requires rest { AtRest (seat_state seat) }
    requires table { seat_table seat ≡ pool_table pool.now }
    requires seats { seat_count seat ≡ pool_seats pool.now }
    ensures passes { AreSeatsOf pool.now passes.new }
{
    put_back(pool, passes, seat.leave())
}

/// The mark of the pool's shelf at the end, or how many passes are missing.
pub fn finish<R: Wait>(pool: Pool<Stub>, rt: &R, passes: Passes) -> Result<u64, u32>
    requires passes { AreSeatsOf pool passes }
{
    match pool.finish(rt, passes) {
        Ok(shelf) => Ok(shelf.mark()),
        Err(
            NotFinished::Missing {
                pool: _,
                passes: _,
                absent,
            },
        ) => Err(absent),
        Err(NotFinished::NoMemory { pool: _, passes: _ }) => Err(0),
    }
}
