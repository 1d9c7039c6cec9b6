use crate::{
    begin, compact_beside, compact_one, end, finish, limit_of, list_last, open, pin_mark, put_back,
    read_one, report, sit, stand, sweep, take, unpin_mark, write_both, write_one, write_swept,
};
use fd_kinds::Held;
use fd_pool::Started;
use std::test::Fail;

#[test]
fn a_batch_waits_in_the_book_for_the_number_before_it(rt: HostRuntime) -> Result<(), Fail> {
    let Started { pool, mut passes } = open(rt.alloc(), 4).ok_or("no memory")?;
    let mut late = sit(&pool, &mut passes).ok_or("the pass of seat 3")?;
    let mut early = sit(&pool, &mut passes).ok_or("the pass of seat 2")?;
    let one = begin(&rt, &mut early).ok_or("the lane of seat 2")?;
    let two = write_one(&rt, &mut late).ok_or("the lane of seat 3")?;
    assert!(rt; one.lo() == 1 && two == 2);
    assert!(rt; sweep(&mut late) == Some(0));
    end(&mut early, one);
    assert!(rt; sweep(&mut early) == Some(2));
    Ok(())
}

#[test]
fn a_pin_keeps_the_parts_behind_it_from_compaction(rt: HostRuntime) -> Result<(), Fail> {
    let Started { pool, mut passes } = open(rt.alloc(), 4).ok_or("no memory")?;
    let mut late = sit(&pool, &mut passes).ok_or("the pass of seat 3")?;
    let mut early = sit(&pool, &mut passes).ok_or("the pass of seat 2")?;
    let mut compactor = sit(&pool, &mut passes).ok_or("the pass of seat 1")?;
    assert_eq!(rt; write_swept(&rt, &mut late, 3), 3);
    let pin = pin_mark(&mut early);
    assert_eq!(rt; pin.w, 3);
    assert_eq!(rt; write_swept(&rt, &mut late, 4), 7);
    assert_eq!(rt; limit_of(&mut compactor), 3);
    assert!(rt; compact_one(&rt, &mut compactor) == Some((1, 3)));
    assert!(rt; list_last(&rt, &mut early, &pin) == Some(3));
    unpin_mark(&mut early, pin);
    assert!(rt; compact_one(&rt, &mut compactor) == Some((4, 7)));
    assert!(rt; read_one(&rt, &mut early) == Some(7));
    Ok(())
}

#[test]
fn the_first_seat_reports_the_mark(rt: HostRuntime) -> Result<(), Fail> {
    let Started { pool, mut passes } = open(rt.alloc(), 3).ok_or("no memory")?;
    let mut late = sit(&pool, &mut passes).ok_or("the pass of seat 2")?;
    assert_eq!(rt; write_swept(&rt, &mut late, 2), 2);
    assert!(rt; report(&mut late) == None);
    let _ = sit(&pool, &mut passes);
    let mut keeper = sit(&pool, &mut passes).ok_or("the pass of seat 0")?;
    assert!(rt; report(&mut keeper) == Some(2));
    Ok(())
}

#[test]
fn a_pool_is_finished_with_the_passes_of_all_seats(rt: HostRuntime) -> Result<(), Fail> {
    let Started { pool, mut passes } = open(rt.alloc(), 3).ok_or("no memory")?;
    let mut late = sit(&pool, &mut passes).ok_or("the pass of seat 2")?;
    assert!(rt; write_one(&rt, &mut late) == Some(1));
    assert!(rt; stand(&pool, &mut passes, late));
    assert!(rt; finish(pool, &rt, passes) == Ok(1));
    Ok(())
}

#[test]
fn a_pool_is_not_finished_while_a_seat_is_taken(rt: HostRuntime) -> Result<(), Fail> {
    let Started { pool, mut passes } = open(rt.alloc(), 3).ok_or("no memory")?;
    let _ = take(&pool, &mut passes);
    assert!(rt; finish(pool, &rt, passes) == Err(1));
    Ok(())
}

#[test]
fn two_threads_write_five_hundred_batches_each(rt: HostRuntime) -> Result<(), Fail> {
    let Started { pool, mut passes } = open(rt.alloc(), 3).ok_or("no memory")?;
    let left = take(&pool, &mut passes).ok_or("the pass of seat 2")?;
    let right = take(&pool, &mut passes).ok_or("the pass of seat 1")?;
    let (left, right) = write_both(&rt, &pool, left, right, 500);
    assert!(rt; put_back(&pool, &mut passes, left));
    assert!(rt; put_back(&pool, &mut passes, right));
    assert!(rt; finish(pool, &rt, passes) == Ok(1000));
    Ok(())
}

#[test]
fn a_seat_compacts_beside_a_writer(rt: HostRuntime) -> Result<(), Fail> {
    let Started { pool, mut passes } = open(rt.alloc(), 3).ok_or("no memory")?;
    let writer = take(&pool, &mut passes).ok_or("the pass of seat 2")?;
    let compactor = take(&pool, &mut passes).ok_or("the pass of seat 1")?;
    let (writer, compactor) = compact_beside(&rt, &pool, writer, compactor, 500);
    assert!(rt; put_back(&pool, &mut passes, writer));
    assert!(rt; put_back(&pool, &mut passes, compactor));
    assert!(rt; finish(pool, &rt, passes) == Ok(500));
    Ok(())
}
