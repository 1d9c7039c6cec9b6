use crate::logs::{ended_log, frame_with, holds, log_of, seal_of, unopened_log, whole_disk};
use fd_open::{Found, inspect, reopen};
use fixtures::{joined, repeated};
use std::test::Fail;

#[test]
fn an_empty_disk_is_one_block(rt: HostRuntime) -> Result<(), Fail> {
    let mut disk = whole_disk(rt.alloc(), &[])?;
    let none = Found {
        blocks: 1,
        numbers: 0,
        rows: 0,
    };
    assert!(rt; inspect(rt.alloc(), &mut disk) == Ok(none));
    assert!(rt; holds(&mut disk, log_of(0), &[]));
    Ok(())
}

#[test]
fn two_blocks_are_counted_and_stay(rt: HostRuntime) -> Result<(), Fail> {
    let ended = ended_log(rt.alloc())?;
    let log = unopened_log(rt.alloc(), 2)?;
    // A gate that is the last byte of its file is closed.
    let files = [
        (log_of(0), ended.as_slice()),
        (log_of(1), log.as_slice()),
        (seal_of(1), &[1][..]),
    ];
    let mut disk = whole_disk(rt.alloc(), &files)?;
    let found = Found {
        blocks: 2,
        numbers: 2,
        rows: 4,
    };
    assert!(rt; inspect(rt.alloc(), &mut disk) == Ok(found));
    assert!(rt; holds(&mut disk, log_of(1), log.as_slice()));
    Ok(())
}

// No log has more in memory for its bytes: a batch without rows has four bytes in its frame, and a
// part of its own on the shelf.
#[test]
fn a_thousand_batches_without_rows_are_found(rt: HostRuntime) -> Result<(), Fail> {
    let head = [1, 1, 1, 0, 0, 0, 0, 0, 0, 0, 0xe8, 3, 0, 0];
    let batches = repeated(rt.alloc(), &[0, 0, 0, 0], 1000)?;
    let payload = joined(rt.alloc(), &[&head, batches.as_slice()])?;
    let frame = frame_with(rt.alloc(), payload.as_slice())?;
    let log = joined(rt.alloc(), &[frame.as_slice(), &[0]])?;
    let mut disk = whole_disk(rt.alloc(), &[(log_of(0), log.as_slice())])?;
    let found = Found {
        blocks: 1,
        numbers: 1000,
        rows: 0,
    };
    assert!(rt; inspect(rt.alloc(), &mut disk) == Ok(found));
    let Ok(opened) = reopen(rt.alloc(), disk) else {
        return Err("the store is opened".into());
    };
    assert!(rt; opened.shelf.mark() == 1000 && opened.keeper.synced() == 1000);
    Ok(())
}
