ghost use Rattle.std.specs.Prelude.{◌≡◌, ◌++◌, ◌+◌, ◌-◌, ◌^◌, min, All, IfOk, OnOk};
ghost use Rattle.fd_kinds.specs.History.{IsSmall};
ghost use Rattle.fd_wal.specs.Frames.{IsRow, IsBatch, batch_spelling, rows_size};
ghost use Rattle.fd_wal.specs.Runs.{IsSpelling};

use crate::row_writer::{put_count, put_row};
use fd_kinds::{Batch, Bytes, NoMemory, row_bytes, row_spelling_laws};
use std::alloc::Global;

/// The bytes of the rows of a batch, and 2^64 - 1 where they are more. A frame takes only batches
/// of at most `MOST_BATCH_BYTES` of them.
pub fn batch_bytes(batch: &Batch) -> u64
    ensures { result ≡ min (rows_size batch.now.rows) (2 ^ 64 - 1) }
{
    let mut size = 0u64;
    for row in batch.rows.as_slice() {
        size = size.saturating_add(row_bytes(row));
    }
    size
}

/// Adds the rows of a batch behind their count.
pub(crate) fn put_batch(out: &mut Bytes, batch: &Batch) -> Result<(), NoMemory>
    requires { IsSmall batch.now.rows }
    ensures ok { OnOk result (out.new ≡ out.old ++ batch_spelling batch.now.rows) }
    ensures rows { OnOk result (All IsRow batch.now.rows) }
{
    put_count(out, batch.rows.len())?;
    for row in batch.rows.as_slice() {
        put_row(out, row)?;
    }
    Ok(())
}

/// The bytes of one batch in a frame: the count of its rows, and the rows. They are made apart
/// from the frame where many write and one keeps the log.
pub fn transaction(alloc: Global, batch: &Batch) -> Result<Bytes, NoMemory>
    requires { IsSmall batch.now.rows }
    ensures spelled { IfOk result (λ bytes. bytes ≡ batch_spelling batch.now.rows) }
    ensures batch { OnOk result (IsBatch batch.now.rows) }
    ensures size { IfOk result (λ bytes. IsSpelling bytes) }
{
    row_spelling_laws();
    let mut out = Bytes::new(alloc);
    out.reserve(4 + batch_bytes(batch) as usize)?;
    put_batch(&mut out, batch)?;
    Ok(out)
}
