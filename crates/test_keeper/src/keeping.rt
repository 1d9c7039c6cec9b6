use fd_device::{Calls, write_synced};
use fd_keeper::{Keeper, KeeperFault};
use fd_kinds::{Batches, Bytes, NoMemory, NumberedBatch};
use fixture_disk::{TestDisk, begins, holds, log_of, read_log, seal_of};
use fixtures::{CPU, MadeRow, joined, made_batch, made_rows};
use sha2::{Digest, Sha256};
use std::alloc::Global;
use std::test::Fail;

/// The open gate, the length and the digest of the frame of one batch, the rows of the profile,
/// with the number 1.
const HEAD: [u8; 37] = [
    0x01, 0x14, 0x01, 0x00, 0x00, 0x65, 0xef, 0xc1, 0x31, 0x2c, 0xba, 0xe8, 0x48, 0x8a, 0xb0, 0x96,
    0x68, 0xce, 0x9e, 0xde, 0x95, 0xf9, 0xb7, 0x64, 0xdf, 0xc2, 0xa9, 0xfe, 0x48, 0xc9, 0xe1, 0x31,
    0x26, 0x0c, 0x8e, 0x0a, 0x64,
];

/// The payload of two batches without rows, with the numbers 1 and 2.
const TWO_BATCHES: [u8; 22] = [
    1, 1, 1, 0, 0, 0, 0, 0, 0, 0, 2, 0, 0, 0, 0, 0, 0, 0, 0, 0, 0, 0,
];

const MAIN: MadeRow<'static> = MadeRow {
    labels: &[("job", "api")],
    timestamp: 1000,
    frames: &["main"],
    value: 10,
    ..CPU
};

const WORK: MadeRow<'static> = MadeRow {
    frames: &["work", "main"],
    value: 20,
    ..MAIN
};

/// The batch of the profile.
pub(crate) const PROFILE: [MadeRow<'static>; 2] = [MAIN, WORK];

/// A keeper of a disk with an empty log of block 0. Each byte of what was in the next block is old.
/// The first 9 calls of the disk are made here.
pub(crate) fn opened(alloc: Global, fails: Calls) -> Result<Keeper<TestDisk>, Fail> {
    let mut disk = TestDisk::new(alloc, fails)?;
    for file in [log_of(1), seal_of(1)] {
        if write_synced(&mut disk, file, 0, b"old").is_err() {
            return Err("the old files are written".into());
        }
    }
    if write_synced(&mut disk, log_of(0), 0, &[0]).is_err() {
        return Err("the first log is made".into());
    }
    Ok(Keeper::resume(disk, 0, 0, 0))
}

/// Flushes the batch of the profile, with the number that follows, which is at most 10.
pub(crate) fn add(alloc: Global, keeper: &mut Keeper<TestDisk>) -> Result<u64, KeeperFault> {
    let synced = keeper.synced();
    let (Ok(batch), 0..=9) = (made_batch(alloc, &PROFILE), synced) else {
        return Err(KeeperFault::NoMemory);
    };
    let mut batches = Batches::new(alloc);
    let number = synced + 1;
    match batches.push(NumberedBatch { number, batch }) {
        Ok(()) => keeper.flush(alloc, &batches),
        Err(NoMemory) => Err(KeeperFault::NoMemory),
    }
}

/// Flushes two batches without rows, with the numbers 1 and 2.
fn add_two(alloc: Global, keeper: &mut Keeper<TestDisk>) -> Result<Option<u64>, NoMemory> {
    if keeper.synced() != 0 {
        return Ok(None);
    }
    let mut batches = Batches::new(alloc);
    let batch = made_batch(alloc, &[])?;
    batches.push(NumberedBatch { number: 1, batch })?;
    let batch = made_batch(alloc, &[])?;
    batches.push(NumberedBatch { number: 2, batch })?;
    Ok(keeper.flush(alloc, &batches).ok())
}

/// Begins the next block. Where nothing was flushed memory is wanting.
pub(crate) fn rotate(alloc: Global, keeper: &mut Keeper<TestDisk>) -> Result<(), KeeperFault> {
    if keeper.synced() == 0 {
        return Err(KeeperFault::NoMemory);
    }
    keeper.rotate(alloc)
}

/// The log of one frame with this payload.
fn log_with(alloc: Global, payload: &[u8; 22]) -> Result<Bytes, NoMemory> {
    let digest = Sha256::digest(payload);
    joined(
        alloc,
        &[&[1, 22, 0, 0, 0], digest.as_slice(), payload, &[0]],
    )
}

#[test]
fn a_batch_is_flushed(rt: HostRuntime) -> Result<(), Fail> {
    let mut keeper = opened(rt.alloc(), Calls::new(rt.alloc()))?;
    assert!(rt; add(rt.alloc(), &mut keeper) == Ok(1));
    assert!(rt; keeper.synced() == 1 && keeper.block() == 0 && keeper.fault_count() == None);
    let mut disk = keeper.close();
    assert!(rt; begins(&mut disk, log_of(0), &HEAD, 314));
    let found = read_log(rt.alloc(), &mut disk, 0, 1).ok_or("the log is whole")?;
    let expected = made_rows(rt.alloc(), &PROFILE)?;
    assert!(rt; found.batches.len() == 1 && found.gate == 313 && !found.rotated);
    for batch in found.batches.as_slice() {
        assert!(rt; batch.number == 1 && batch.batch.rows == expected);
    }
    Ok(())
}

#[test]
fn two_batches_share_a_frame(rt: HostRuntime) -> Result<(), Fail> {
    let mut keeper = opened(rt.alloc(), Calls::new(rt.alloc()))?;
    assert!(rt; add_two(rt.alloc(), &mut keeper)? == Some(2));
    assert!(rt; keeper.synced() == 2);
    let mut disk = keeper.close();
    let expected = log_with(rt.alloc(), &TWO_BATCHES)?;
    assert!(rt; holds(&mut disk, log_of(0), expected.as_slice()));
    Ok(())
}

#[test]
fn no_batch_touches_no_disk(rt: HostRuntime) -> Result<(), Fail> {
    let mut fails = Calls::new(rt.alloc());
    fails.push(10)?;
    let mut keeper = opened(rt.alloc(), fails)?;
    let batches = Batches::new(rt.alloc());
    assert!(rt; keeper.flush(rt.alloc(), &batches) == Ok(0));
    assert!(rt; keeper.synced() == 0 && keeper.fault_count() == None);
    Ok(())
}

#[test]
fn a_rotation_begins_the_next_block(rt: HostRuntime) -> Result<(), Fail> {
    let mut keeper = opened(rt.alloc(), Calls::new(rt.alloc()))?;
    assert!(rt; add(rt.alloc(), &mut keeper) == Ok(1));
    assert!(rt; rotate(rt.alloc(), &mut keeper) == Ok(()));
    assert!(rt; keeper.block() == 1 && keeper.synced() == 1);
    let mut disk = keeper.close();
    assert!(rt; begins(&mut disk, log_of(0), &HEAD, 361));
    assert!(rt; holds(&mut disk, log_of(1), &[0]) && holds(&mut disk, seal_of(1), &[]));
    let found = read_log(rt.alloc(), &mut disk, 0, 1).ok_or("the log is whole")?;
    assert!(rt; found.batches.len() == 1 && found.gate == 360 && found.rotated);
    Ok(())
}

#[test]
fn batches_go_on_in_the_next_block(rt: HostRuntime) -> Result<(), Fail> {
    let mut keeper = opened(rt.alloc(), Calls::new(rt.alloc()))?;
    assert!(rt; add(rt.alloc(), &mut keeper) == Ok(1));
    assert!(rt; rotate(rt.alloc(), &mut keeper) == Ok(()));
    assert!(rt; add(rt.alloc(), &mut keeper) == Ok(2));
    let mut disk = keeper.close();
    assert!(rt; begins(&mut disk, log_of(0), &HEAD, 361));
    let found = read_log(rt.alloc(), &mut disk, 1, 2).ok_or("the log is whole")?;
    assert!(rt; found.batches.len() == 1 && found.gate == 313 && !found.rotated);
    Ok(())
}
