use crate::{
    begin, close, compact, end, finish, list_last, open, open_store, pin_mark, put_back,
    read_total, sit, stand, stand_at, sweep, take, unpin_mark, write_and_read, write_many,
    write_one,
};
use fd_compact::Compaction;
use fd_kinds::ReadRefusal;
use fd_pool::Started;
use fixtures::{CPU, made_batch};
use std::test::Fail;

#[test]
fn two_stores_see_what_each_other_wrote(rt: HostRuntime) -> Result<(), Fail> {
    let Started { pool, mut passes } = open(rt.alloc(), 4).ok_or("no memory")?;
    let mut late = open_store(&rt, &pool, &mut passes).ok_or("the pass of seat 3")?;
    let mut early = open_store(&rt, &pool, &mut passes).ok_or("the pass of seat 2")?;
    assert!(rt; write_one(rt.alloc(), &mut late, 5) == Ok(1));
    assert!(rt; write_one(rt.alloc(), &mut early, 7) == Ok(2));
    assert!(rt; read_total(rt.alloc(), &mut late, 0) == Ok((2, 12)));
    assert!(rt; read_total(rt.alloc(), &mut early, 2) == Ok((2, 12)));
    assert!(rt; stand_at(&mut early) == (2, 0, 2));
    Ok(())
}

#[test]
fn a_query_waits_for_no_number_that_was_not_drawn(rt: HostRuntime) -> Result<(), Fail> {
    let Started { pool, mut passes } = open(rt.alloc(), 3).ok_or("no memory")?;
    let mut store = open_store(&rt, &pool, &mut passes).ok_or("the pass of seat 2")?;
    assert!(rt; write_many(rt.alloc(), &mut store, 4));
    assert!(rt; read_total(rt.alloc(), &mut store, 9) == Err(ReadRefusal::NotDrawn { drawn: 4 }));
    assert!(rt; read_total(rt.alloc(), &mut store, 4) == Ok((4, 4)));
    Ok(())
}

#[test]
fn an_answer_ends_before_a_number_that_has_not_landed(rt: HostRuntime) -> Result<(), Fail> {
    let Started { pool, mut passes } = open(rt.alloc(), 4).ok_or("no memory")?;
    let mut late = open_store(&rt, &pool, &mut passes).ok_or("the pass of seat 3")?;
    let mut early = sit(&pool, &mut passes).ok_or("the pass of seat 2")?;
    let one = begin(&rt, &mut early, made_batch(rt.alloc(), &[CPU])?).ok_or("seat 2's lane")?;
    assert!(rt; write_one(rt.alloc(), &mut late, 7) == Ok(2));
    assert!(rt; read_total(rt.alloc(), &mut late, 0) == Ok((0, 0)));
    end(&mut early, one);
    assert!(rt; sweep(&mut early) == Some(2));
    assert!(rt; read_total(rt.alloc(), &mut late, 0) == Ok((2, 12)));
    Ok(())
}

#[test]
fn a_pin_keeps_the_parts_behind_it_from_compaction(rt: HostRuntime) -> Result<(), Fail> {
    let Started { pool, mut passes } = open(rt.alloc(), 4).ok_or("no memory")?;
    let mut late = open_store(&rt, &pool, &mut passes).ok_or("the pass of seat 3")?;
    let mut early = sit(&pool, &mut passes).ok_or("the pass of seat 2")?;
    let mut compactor = sit(&pool, &mut passes).ok_or("the pass of seat 1")?;
    assert!(rt; write_many(rt.alloc(), &mut late, 3));
    let pin = pin_mark(&mut early);
    assert_eq!(rt; pin.w, 3);
    assert!(rt; write_many(rt.alloc(), &mut late, 4));
    let first = Compaction::Compacted {
        lo: 1,
        hi: 3,
        rows: 3,
    };
    assert!(rt; compact(&rt, &mut compactor) == Some(first));
    assert!(rt; list_last(&rt, &mut early, &pin) == Some(3));
    unpin_mark(&mut early, pin);
    let second = Compaction::Compacted {
        lo: 4,
        hi: 7,
        rows: 4,
    };
    assert!(rt; compact(&rt, &mut compactor) == Some(second));
    assert!(rt; compact(&rt, &mut compactor) == Some(Compaction::Nothing { parts: 0 }));
    assert!(rt; read_total(rt.alloc(), &mut late, 7) == Ok((7, 7)));
    Ok(())
}

#[test]
fn a_pool_is_finished_with_the_passes_of_closed_stores(rt: HostRuntime) -> Result<(), Fail> {
    let Started { pool, mut passes } = open(rt.alloc(), 3).ok_or("no memory")?;
    let mut store = open_store(&rt, &pool, &mut passes).ok_or("the pass of seat 2")?;
    assert!(rt; write_one(rt.alloc(), &mut store, 5) == Ok(1));
    assert!(rt; close(&pool, &mut passes, store));
    let seat = sit(&pool, &mut passes).ok_or("the pass of seat 2")?;
    assert!(rt; stand(&pool, &mut passes, seat));
    assert!(rt; finish(pool, &rt, passes) == Ok(1));
    Ok(())
}

#[test]
fn two_threads_read_what_each_has_written(rt: HostRuntime) -> Result<(), Fail> {
    let Started { pool, mut passes } = open(rt.alloc(), 3).ok_or("no memory")?;
    let left = take(&pool, &mut passes).ok_or("the pass of seat 2")?;
    let right = take(&pool, &mut passes).ok_or("the pass of seat 1")?;
    let (left, right) = write_and_read(&rt, rt.alloc(), &pool, left, right, 20);
    assert!(rt; left.0 && right.0);
    assert!(rt; put_back(&pool, &mut passes, left.1));
    assert!(rt; put_back(&pool, &mut passes, right.1));
    assert!(rt; finish(pool, &rt, passes) == Ok(40));
    Ok(())
}
