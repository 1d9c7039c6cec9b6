use crate::logs::{ONE_BATCH, batch_frame, holds, last_frame, log_of, whole_disk};
use fd_device::MemDisk;
use fd_open::{Reopened, reopen};
use fixtures::joined;
use std::alloc::Global;
use std::test::Fail;

fn opened(alloc: Global, disk: MemDisk) -> Result<Reopened<MemDisk>, Fail> {
    match reopen(alloc, disk) {
        Ok(opened) => Ok(opened),
        Err(_) => Err("the store is opened".into()),
    }
}

#[test]
fn an_empty_disk_has_no_batch(rt: HostRuntime) -> Result<(), Fail> {
    let disk = whole_disk(rt.alloc(), &[])?;
    let Reopened { shelf, keeper } = opened(rt.alloc(), disk)?;
    assert!(rt; shelf.mark() == 0 && shelf.active() == 0);
    assert!(rt; keeper.synced() == 0 && keeper.block() == 0 && keeper.fault_count() == None);
    let mut disk = keeper.close();
    assert!(rt; holds(&mut disk, log_of(0), &[0]));
    Ok(())
}

#[test]
fn a_batch_is_found(rt: HostRuntime) -> Result<(), Fail> {
    let frame = batch_frame(rt.alloc(), 1)?;
    let log = joined(rt.alloc(), &[frame.as_slice(), &[0]])?;
    assert!(rt; log.len() == ONE_BATCH);
    let disk = whole_disk(rt.alloc(), &[(log_of(0), log.as_slice())])?;
    let Reopened { shelf, keeper } = opened(rt.alloc(), disk)?;
    assert!(rt; shelf.mark() == 1 && keeper.synced() == 1);
    let mut disk = keeper.close();
    assert!(rt; holds(&mut disk, log_of(0), log.as_slice()));
    Ok(())
}

#[test]
fn two_blocks_follow_one_another(rt: HostRuntime) -> Result<(), Fail> {
    let one = batch_frame(rt.alloc(), 1)?;
    let last = last_frame(rt.alloc(), 1)?;
    let ended = joined(rt.alloc(), &[one.as_slice(), last.as_slice(), &[0]])?;
    let two = batch_frame(rt.alloc(), 2)?;
    let log = joined(rt.alloc(), &[two.as_slice(), &[0]])?;
    let files = [(log_of(0), ended.as_slice()), (log_of(1), log.as_slice())];
    let disk = whole_disk(rt.alloc(), &files)?;
    let Reopened { shelf, keeper } = opened(rt.alloc(), disk)?;
    assert!(rt; shelf.mark() == 2 && shelf.active() == 1);
    assert!(rt; keeper.synced() == 2 && keeper.block() == 1);
    Ok(())
}
