use crate::compactions::{parts_of, written_often};
use fd_kinds::{Batches, Held, NoMemory, NumberedBatch};
use fd_part::Part;
use fd_shelf::InBlock;
use std::test::Fail;

/// Whether this is the batch of a write of two rows, with their values, under the number.
fn is_write(batch: &NumberedBatch, number: u64) -> bool {
    match batch.batch.rows.as_slice() {
        [a, b] => {
            batch.number == number
                && ((a.value, b.value) == (10, 20) || (a.value, b.value) == (20, 10))
        }
        _ => false,
    }
}

/// Whether these are the batches of so many writes, by the first and the last of them.
fn are_writes(batches: &Batches, count: u64) -> bool {
    match batches.as_slice() {
        [one] => count == 1 && is_write(one, 1),
        [first, .., last] => {
            batches.len() as u64 == count && is_write(first, 1) && is_write(last, count)
        }
        [] => false,
    }
}

/// Whether a part comes apart into the batches of so many writes.
fn comes_apart(part: &Part, count: u64) -> Result<bool, NoMemory> {
    if part.hi() >= 1 << 63 {
        return Ok(false);
    }
    Ok(are_writes(&part.batches()?, count))
}

/// Whether the only part does.
fn only_comes_apart(parts: &[InBlock<Part>], count: u64) -> Result<bool, NoMemory> {
    match parts {
        [one] => comes_apart(&one.part, count),
        _ => Ok(false),
    }
}

#[test]
fn a_loose_part_is_one_batch(rt: HostRuntime) -> Result<(), Fail> {
    let shelf = written_often(rt.alloc(), 1)?.close();
    assert!(rt; only_comes_apart(parts_of(&shelf)?.as_slice(), 1)?);
    Ok(())
}

#[test]
fn a_sealed_part_comes_apart_into_its_batches(rt: HostRuntime) -> Result<(), Fail> {
    let shelf = written_often(rt.alloc(), 16)?.close();
    assert!(rt; only_comes_apart(parts_of(&shelf)?.as_slice(), 16)?);
    Ok(())
}
