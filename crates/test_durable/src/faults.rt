use crate::stores::{FIRST_CALL, count_in_log, opened, write};
use fd_device::Calls;
use fd_kinds::WriteRefusal;
use std::alloc::Global;
use std::test::Fail;

/// A choice of an image for each file.
const EACH_FILE: u64 = 21;

/// How many batches are there after a crash at this call of the disk. None where the log is damaged
/// or the store went on.
fn left_of_write(alloc: Global, call: u64, choice: u64) -> Result<Option<usize>, Fail> {
    let mut fails = Calls::new(alloc);
    fails.push(call)?;
    let mut store = opened(alloc, fails)?;
    let refused = write(alloc, &mut store)? == Err(WriteRefusal::DiskFault);
    let (shelf, keeper) = store.close();
    if !refused || shelf.mark() != 0 || keeper.fault_count() != Some(1) {
        return Ok(None);
    }
    let mut disk = keeper.close();
    disk.image(choice);
    count_in_log(alloc, &mut disk, 0, 1)
}

#[test]
fn a_fault_before_the_gate_is_written_leaves_nothing(rt: HostRuntime) -> Result<(), Fail> {
    for call in FIRST_CALL..FIRST_CALL + 5 {
        for choice in 0..4 {
            assert!(rt; left_of_write(rt.alloc(), call, choice * EACH_FILE)? == Some(0));
        }
    }
    Ok(())
}

#[test]
fn a_fault_of_the_last_sync_leaves_the_batch_or_nothing(rt: HostRuntime) -> Result<(), Fail> {
    assert!(rt; left_of_write(rt.alloc(), FIRST_CALL + 5, 0)? == Some(1));
    assert!(rt; left_of_write(rt.alloc(), FIRST_CALL + 5, EACH_FILE)? == Some(0));
    Ok(())
}
