ghost use Rattle.std.specs.Prelude.{◌≡◌, true, false, IfOk};

use fd_device::{Calls, write_synced};
use fd_durable::Local;
use fd_keeper::Keeper;
use fd_kinds::{Batch, Store, WriteRefusal};
use fd_shelf::Shelf;
use fixture_disk::{TestDisk, log_of, read_log};
use fixtures::{CPU, MadeRow, made_batch, made_rows};
use std::alloc::Global;
use std::test::Fail;

/// The first call of the disk behind those that `opened` makes.
pub(crate) const FIRST_CALL: u64 = 4;

/// The rows of the batch that each test writes.
pub(crate) const PROFILE: [MadeRow<'static>; 1] = [CPU];

/// A store without batches, over a disk with an empty log of block 0.
pub(crate) fn opened(alloc: Global, fails: Calls) -> Result<Local<TestDisk>, Fail>
    ensures healthy { IfOk result (λ store. store.failed ≡ false) }
{
    let mut disk = TestDisk::new(alloc, fails)?;
    if write_synced(&mut disk, log_of(0), 0, &[0]).is_err() {
        return Err("the first log is made".into());
    }
    let keeper = Keeper::resume(disk, 0, 0, 0);
    Ok(Local::new(Shelf::new(alloc), keeper))
}

/// Writes the batch of the profile.
pub(crate) fn write(
    alloc: Global,
    store: &mut Local<TestDisk>,
) -> Result<Result<u64, WriteRefusal>, Fail>
    requires healthy { store.old.failed ≡ false }
{
    let batch = made_batch(alloc, &PROFILE)?;
    Ok(store.write(batch))
}

/// How many batches of the profile, from this number on, the log of a block has. None where the
/// log is damaged or has another batch.
pub(crate) fn count_in_log(
    alloc: Global,
    disk: &mut TestDisk,
    block: u64,
    first: u64,
) -> Result<Option<usize>, Fail> {
    let Some(found) = read_log(alloc, disk, block, first) else {
        return Ok(None);
    };
    let expected = made_rows(alloc, &PROFILE)?;
    for batch in found.batches.as_slice() {
        if batch.batch.rows != expected {
            return Ok(None);
        }
    }
    Ok(Some(found.batches.len()))
}
