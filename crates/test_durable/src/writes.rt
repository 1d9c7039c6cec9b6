ghost use Rattle.std.specs.Prelude.{◌≡◌, true, false, IfOk};

use crate::stores::{count_in_log, opened, write};
use fd_device::Calls;
use fd_durable::Local;
use fd_kinds::Store;
use fixture_disk::{TestDisk, holds, seal_of};
use fixtures::{CPU, made_batch};
use std::alloc::Global;
use std::test::Fail;

/// So many batches of as many rows fill a block.
const MANY: u64 = 256;

/// Fills the active block, which is empty, and answers whether each batch got its number.
fn fill(alloc: Global, store: &mut Local<TestDisk>) -> Result<bool, Fail>
    requires healthy { store.old.failed ≡ false }
    ensures healthy { IfOk result (λ done. done ≡ true → store.new.failed ≡ false) }
{
    for number in 1..=MANY {
        let batch = made_batch(alloc, &[CPU; MANY as usize])?;
        match store.write(batch) {
            Ok(got) if got == number => {}
            _ => return Ok(false),
        }
    }
    Ok(true)
}

#[test]
fn a_written_batch_is_in_each_image(rt: HostRuntime) -> Result<(), Fail> {
    let mut store = opened(rt.alloc(), Calls::new(rt.alloc()))?;
    assert!(rt; write(rt.alloc(), &mut store)? == Ok(1));
    let (shelf, keeper) = store.close();
    assert!(rt; shelf.mark() == 1 && keeper.synced() == 1 && keeper.block() == 0);
    let mut disk = keeper.close();
    for choice in 0..100 {
        disk.image(choice);
        assert!(rt; count_in_log(rt.alloc(), &mut disk, 0, 1)? == Some(1));
    }
    Ok(())
}

#[test]
fn a_batch_behind_a_full_block_goes_to_the_next_log(rt: HostRuntime) -> Result<(), Fail> {
    let mut store = opened(rt.alloc(), Calls::new(rt.alloc()))?;
    if !fill(rt.alloc(), &mut store)? {
        return Err("the block is filled".into());
    }
    assert!(rt; write(rt.alloc(), &mut store)? == Ok(MANY + 1));
    let (shelf, keeper) = store.close();
    assert!(rt; shelf.active() == 1 && keeper.block() == 1 && keeper.synced() == MANY + 1);
    let mut disk = keeper.close();
    assert!(rt; count_in_log(rt.alloc(), &mut disk, 1, MANY + 1)? == Some(1));
    assert!(rt; holds(&mut disk, seal_of(1), &[]));
    Ok(())
}
