ghost use Rattle.std.specs.Prelude.{◌≡◌, IfSome};
ghost use Rattle.fd_pool.specs.Pools.{pool_seats, pool_table};
ghost use Rattle.test_pooled.specs.Rests.{AreSeatsOf};

use crate::pools::put_back;
use crate::seats::sit;
use fd_kinds::{
    Answer, Matchers, NoMemory, Query, ReadRefusal, Selector, Stand, Store, Window, WriteRefusal,
};
use fd_part::Part;
use fd_pool::{Passes, Pool};
use fd_pooled::Pooled;
use fixtures::{CPU, MadeRow, kind, made_batch};
use std::alloc::Global;
use std::sync::Wait;

/// A store over the last of the passes.
pub fn open_store<'a, R: Wait>(
    rt: &'a R,
    pool: &'a Pool<Part>,
    passes: &mut Passes,
) -> Option<Pooled<'a, R>>
    requires passes { AreSeatsOf pool.now passes.old }
    ensures passes { AreSeatsOf pool.now passes.new }
    ensures table { IfSome result (λ store. store.table ≡ pool_table pool.now) }
    ensures seats { IfSome result (λ store. store.seats ≡ pool_seats pool.now) }
{
    let seat = sit(pool, passes)?;
    Some(Pooled::new(rt, seat))
}

/// Closes the store: its pass comes to the others. False for want of memory.
pub fn close<'a, R: Wait>(pool: &Pool<Part>, passes: &mut Passes, store: Pooled<'a, R>) -> bool
    requires passes { AreSeatsOf pool.now passes.old }
    requires table { store.table ≡ pool_table pool.now }
    requires seats { store.seats ≡ pool_seats pool.now }
    ensures passes { AreSeatsOf pool.now passes.new }
{
    let seat = store.close();
    put_back(pool, passes, seat.leave())
}

/// Writes one row with this value.
pub fn write_one<R: Wait>(
    alloc: Global,
    store: &mut Pooled<R>,
    value: i64,
) -> Result<u64, WriteRefusal>
    ensures table { store.new.table ≡ store.old.table }
    ensures seats { store.new.seats ≡ store.old.seats }
{
    let batch = made_batch(alloc, &[MadeRow { value, ..CPU }])?;
    store.write(batch)
}

/// Writes so many rows, one by one. False where one was refused.
pub fn write_many<R: Wait>(alloc: Global, store: &mut Pooled<R>, count: u32) -> bool
    ensures table { store.new.table ≡ store.old.table }
    ensures seats { store.new.seats ≡ store.old.seats }
{
    for _ in 0..count {
        if write_one(alloc, store, 1).is_err() {
            return false;
        }
    }
    true
}

/// The query for the sum of all made rows.
fn sum_query(alloc: Global) -> Result<Query, NoMemory> {
    let selector = Selector {
        kind: kind(alloc, &CPU.kind, false)?,
        matchers: Matchers::new(alloc),
    };
    Ok(Query::Merge {
        selector,
        window: Window {
            start: i64::MIN,
            end: i64::MAX,
        },
    })
}

/// The watermark of an answer over at least `after` batches, and the sum of the rows.
pub fn read_total<R: Wait>(
    alloc: Global,
    store: &mut Pooled<R>,
    after: u64,
) -> Result<(u64, i128), ReadRefusal>
    ensures table { store.new.table ≡ store.old.table }
    ensures seats { store.new.seats ≡ store.old.seats }
{
    let query = sum_query(alloc)?;
    let seen = store.read(after, &query)?;
    match seen.answer {
        Answer::Merge { stacks: _, total } => Ok((seen.watermark, total)),
        _ => Ok((seen.watermark, -1)),
    }
}

/// How far the store is: the numbers drawn, reported synced, and in the book.
pub fn stand_at<R: Wait>(store: &mut Pooled<R>) -> (u64, u64, u64)
    ensures table { store.new.table ≡ store.old.table }
    ensures seats { store.new.seats ≡ store.old.seats }
{
    let Stand {
        drawn,
        synced,
        watermark,
    } = store.stand();
    (drawn, synced, watermark)
}
