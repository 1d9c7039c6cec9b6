ghost use Rattle.std.specs.Prelude.{◌≡◌, ◌≤◌, ◌<◌, ◌^◌, [], IfSome};
ghost use Rattle.fd_pool.specs.Pools.{pool_seats, pool_table};
ghost use Rattle.fd_rule.specs.declared.limits.TheConstants.{MOST_SEATS};
ghost use Rattle.test_pooled.specs.Rests.{AreSeatsOf, IsSeatOf};

use fd_part::Part;
use fd_pool::{NotFinished, Passes, Pool, Started};
use fd_rule::Pass;
use fd_shelf::Shelf;
use std::alloc::Global;
use std::sync::Wait;

/// A pool over a shelf.
pub fn open_over(alloc: Global, shelf: Shelf<Part>, seats: u32) -> Option<Started<Part>>
    requires seats { (3 ≤ seats) × (seats ≤ MOST_SEATS) }
    requires alone { shelf.book.stragglers ≡ [] }
    ensures { IfSome result (λ started. AreSeatsOf started.pool started.passes) }
{
    match Pool::start(alloc, shelf, 0, seats) {
        Ok(started) => Some(started),
        Err(_) => None,
    }
}

/// A pool over an empty shelf.
pub fn open(alloc: Global, seats: u32) -> Option<Started<Part>>
    requires seats { (3 ≤ seats) × (seats ≤ MOST_SEATS) }
    ensures { IfSome result (λ started. AreSeatsOf started.pool started.passes) }
{
    open_over(alloc, Shelf::new(alloc), seats)
}

/// Takes the last of the passes.
pub fn take(pool: &Pool<Part>, passes: &mut Passes) -> Option<Pass>
    requires passes { AreSeatsOf pool.now passes.old }
    ensures passes { AreSeatsOf pool.now passes.new }
    ensures pass { IfSome result (λ pass. IsSeatOf pool.now pass) }
{
    passes.pop()
}

/// Puts a pass to the others. False for want of memory.
pub fn put_back(pool: &Pool<Part>, passes: &mut Passes, pass: Pass) -> bool
    requires passes { AreSeatsOf pool.now passes.old }
    requires pass { IsSeatOf pool.now pass }
    ensures passes { AreSeatsOf pool.now passes.new }
{
    passes.push(pass).is_ok()
}

/// The mark of the pool's shelf at the end, or how many passes are missing.
pub fn finish<R: Wait>(pool: Pool<Part>, rt: &R, passes: Passes) -> Result<u64, u32>
    requires passes { AreSeatsOf pool passes }
{
    match pool.finish(rt, passes) {
        Ok(shelf) => Ok(shelf.mark()),
        Err(
            NotFinished::Missing {
                pool: _,
                passes: _,
                absent,
            },
        ) => Err(absent),
        Err(NotFinished::NoMemory { pool: _, passes: _ }) => Err(0),
    }
}
