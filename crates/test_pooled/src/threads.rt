ghost use Rattle.std.specs.Prelude.{◌≡◌};
ghost use Rattle.test_pooled.specs.Rests.{IsSeatOf};

use crate::stores::{read_total, write_one};
use fd_part::Part;
use fd_pool::Pool;
use fd_pooled::Pooled;
use fd_rule::Pass;
use std::alloc::Global;
use std::sync::Wait;
use std::thread::{Threads, join};

/// Writes so many rows of value 1 and reads after each: each answer has as much as its watermark,
/// and no watermark is below the number that was just written. False where it is not so.
fn write_read_many<R: Wait>(alloc: Global, store: &mut Pooled<R>, count: u32) -> bool
    ensures table { store.new.table ≡ store.old.table }
    ensures seats { store.new.seats ≡ store.old.seats }
{
    for _ in 0..count {
        let number = write_one(alloc, store, 1).unwrap_or(0);
        match read_total(alloc, store, number) {
            Ok((watermark, total)) => {
                if watermark < number || total != watermark as i128 {
                    return false;
                }
            }
            Err(_) => return false,
        }
    }
    true
}

/// Sits down, writes and reads so often, and gets up again.
fn work<R: Wait>(rt: &R, alloc: Global, pool: &Pool<Part>, pass: Pass, count: u32) -> (bool, Pass)
    requires pass { IsSeatOf pool.now pass }
    ensures pass { IsSeatOf pool.now result.1 }
{
    let mut store = Pooled::new(rt, pool.seat(pass));
    let good = write_read_many(alloc, &mut store, count);
    (good, store.close().leave())
}

/// Two stores over one pool write and read so often each, in two threads.
pub fn write_and_read<R: Threads + Wait + Sync>(
    rt: &R,
    alloc: Global,
    pool: &Pool<Part>,
    left: Pass,
    right: Pass,
    count: u32,
) -> ((bool, Pass), (bool, Pass))
    requires left { IsSeatOf pool.now left }
    requires right { IsSeatOf pool.now right }
    ensures left { IsSeatOf pool.now result.0.1 }
    ensures right { IsSeatOf pool.now result.1.1 }
{
    join(
        rt,
        || work(rt, alloc, pool, left, count),
        || work(rt, alloc, pool, right, count),
    )
}
