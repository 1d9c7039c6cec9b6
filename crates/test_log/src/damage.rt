ghost use Rattle.std.specs.Prelude.{◌≤◌};

use crate::logs::{LOG, ROTATION, is_damaged, tells};
use fd_kinds::{Bytes, NoMemory};
use fd_wal::replay;
use fixtures::joined;
use sha2::{Digest, Sha256};
use std::alloc::Global;
use std::test::Fail;

/// The front of a payload of one batch with one row, with the number 1.
const HEAD: [u8; 18] = [1, 1, 1, 0, 0, 0, 0, 0, 0, 0, 1, 0, 0, 0, 1, 0, 0, 0];

/// The payload of one row whose texts and lists are empty and whose numbers are 0.
const EMPTY_ROW: [u8; 82] = [
    1, 1, 1, 0, 0, 0, 0, 0, 0, 0, 1, 0, 0, 0, 1, 0, 0, 0, 0, 0, 0, 0, 0, 0, 0, 0, 0, 0, 0, 0, 0, 0,
    0, 0, 0, 0, 0, 0, 0, 0, 0, 0, 0, 0, 0, 0, 0, 0, 0, 0, 0, 0, 0, 0, 0, 0, 0, 0, 0, 0, 0, 0, 0, 0,
    0, 0, 0, 0, 0, 0, 0, 0, 0, 0, 0, 0, 0, 0, 0, 0, 0, 0,
];

/// The payload of one batch without rows, with the number 1.
const EMPTY_BATCH: [u8; 18] = [1, 1, 1, 0, 0, 0, 0, 0, 0, 0, 1, 0, 0, 0, 0, 0, 0, 0];

/// The same with the number 2.
const SECOND_BATCH: [u8; 18] = [1, 1, 2, 0, 0, 0, 0, 0, 0, 0, 1, 0, 0, 0, 0, 0, 0, 0];

/// The same with the greatest number that a batch may have.
const LAST_BATCH: [u8; 18] = [
    1, 1, 0xff, 0xff, 0xff, 0xff, 0xff, 0xff, 0xff, 0x7f, 1, 0, 0, 0, 0, 0, 0, 0,
];

/// Two batches, of which the first has that number.
const PAST_LAST_BATCH: [u8; 22] = [
    1, 1, 0xff, 0xff, 0xff, 0xff, 0xff, 0xff, 0xff, 0x7f, 2, 0, 0, 0, 0, 0, 0, 0, 0, 0, 0, 0,
];

/// The greatest number that a batch may have.
const LAST_NUMBER: u64 = 0x7fff_ffff_ffff_ffff;

/// Payloads that no log of the first number 1 begins with.
const OTHER_PAYLOADS: &[&[u8]] = &[
    &[],
    &[1],
    // another version, and another kind
    &[2, 1, 1, 0, 0, 0, 0, 0, 0, 0, 1, 0, 0, 0, 0, 0, 0, 0],
    &[1, 3, 1, 0, 0, 0, 0, 0, 0, 0, 1, 0, 0, 0, 0, 0, 0, 0],
    // other numbers
    &[1, 1, 0, 0, 0, 0, 0, 0, 0, 0, 1, 0, 0, 0, 0, 0, 0, 0],
    &SECOND_BATCH,
    // no batch, one that is cut, and a byte behind
    &[1, 1, 1, 0, 0, 0, 0, 0, 0, 0, 0, 0, 0, 0],
    &[1, 1, 1, 0, 0, 0, 0, 0, 0, 0, 1, 0, 0, 0, 0, 0, 0],
    &[1, 1, 1, 0, 0, 0, 0, 0, 0, 0, 1, 0, 0, 0, 0, 0, 0, 0, 0],
    // a rotation without batches
    &[1, 2, 0, 0, 0, 0, 0, 0, 0, 0],
];

/// Payloads that no frame behind the log of one batch has.
const OTHER_SECOND_PAYLOADS: &[&[u8]] = &[
    &EMPTY_BATCH,
    // the greatest number is another, it is cut, and a byte behind
    &[1, 2, 0, 0, 0, 0, 0, 0, 0, 0],
    &[1, 2, 2, 0, 0, 0, 0, 0, 0, 0],
    &[1, 2, 1, 0, 0, 0, 0, 0, 0],
    &[1, 2, 1, 0, 0, 0, 0, 0, 0, 0, 0],
];

/// Labels that no row has: their names fall or are the same, a value is empty or no UTF-8.
const OTHER_LABELS: &[&[u8]] = &[
    &[
        2, 0, 0, 0, 1, 0, 0, 0, b'b', 1, 0, 0, 0, b'x', 1, 0, 0, 0, b'a', 1, 0, 0, 0, b'x',
    ],
    &[
        2, 0, 0, 0, 1, 0, 0, 0, b'a', 1, 0, 0, 0, b'x', 1, 0, 0, 0, b'a', 1, 0, 0, 0, b'y',
    ],
    &[1, 0, 0, 0, 1, 0, 0, 0, b'a', 0, 0, 0, 0],
    &[1, 0, 0, 0, 1, 0, 0, 0, b'a', 1, 0, 0, 0, 0xff],
];

/// A label without a name.
const NAMELESS: [u8; 13] = [1, 0, 0, 0, 0, 0, 0, 0, 1, 0, 0, 0, b'x'];

/// A frame with this payload, behind an open gate and before a closed one. One that is too long
/// for a frame wants memory.
fn log_of(alloc: Global, payload: &[u8]) -> Result<Bytes, NoMemory> {
    let Ok(size) = u32::try_from(payload.len()) else {
        return Err(NoMemory);
    };
    let digest = Sha256::digest(payload);
    joined(
        alloc,
        &[&[1], &size.to_le_bytes(), digest.as_slice(), payload, &[0]],
    )
}

/// The log of one batch, and a frame with this payload.
fn second_of(alloc: Global, payload: &[u8]) -> Result<Bytes, NoMemory> {
    let second = log_of(alloc, payload)?;
    joined(alloc, &[&LOG[..313], second.as_slice()])
}

/// Whether a log that begins with this payload is damaged.
fn is_refused(alloc: Global, payload: &[u8]) -> Result<bool, NoMemory> {
    let log = log_of(alloc, payload)?;
    Ok(is_damaged(alloc, log.as_slice(), 1, 0))
}

fn are_refused(alloc: Global) -> Result<bool, NoMemory> {
    for payload in OTHER_PAYLOADS {
        if !is_refused(alloc, payload)? {
            return Ok(false);
        }
    }
    Ok(true)
}

fn are_refused_second(alloc: Global) -> Result<bool, NoMemory> {
    for payload in OTHER_SECOND_PAYLOADS {
        let log = second_of(alloc, payload)?;
        if !is_damaged(alloc, log.as_slice(), 1, 313) {
            return Ok(false);
        }
    }
    Ok(true)
}

/// The payload of a row with these labels, and nothing else in it.
fn labels_payload(alloc: Global, labels: &[u8]) -> Result<Bytes, NoMemory> {
    joined(alloc, &[&HEAD, &[0; 20], labels, &[0; 40]])
}

fn are_refused_labels(alloc: Global) -> Result<bool, NoMemory> {
    for labels in OTHER_LABELS {
        let payload = labels_payload(alloc, labels)?;
        if !is_refused(alloc, payload.as_slice())? {
            return Ok(false);
        }
    }
    Ok(true)
}

/// The payload of the empty row, with the greatest count at this place.
fn lie(alloc: Global, at: usize) -> Result<Bytes, NoMemory>
    requires { at ≤ 78 }
{
    joined(alloc, &[&EMPTY_ROW[..at], &[0xff; 4], &EMPTY_ROW[at + 4..]])
}

/// Whether each count of the payload may not be the greatest: of batches, of rows, of the bytes of
/// a name, of labels, of frames and of labels of the sample. To want memory is another answer.
fn lies_are_refused(alloc: Global) -> Result<bool, NoMemory> {
    for at in [10, 14, 18, 38, 50, 54] {
        if at > 78 {
            return Ok(false);
        }
        let payload = lie(alloc, at)?;
        if !is_refused(alloc, payload.as_slice())? {
            return Ok(false);
        }
    }
    Ok(true)
}

#[test]
fn another_payload_is_damage(rt: HostRuntime) -> Result<(), Fail> {
    assert!(rt; are_refused(rt.alloc())?);
    let empty = log_of(rt.alloc(), &EMPTY_BATCH)?;
    assert!(rt; tells(&replay(rt.alloc(), empty.as_slice(), 1), 1, 55));
    Ok(())
}

#[test]
fn another_second_payload_is_damage_at_its_gate(rt: HostRuntime) -> Result<(), Fail> {
    assert!(rt; are_refused_second(rt.alloc())?);
    let second = second_of(rt.alloc(), &SECOND_BATCH)?;
    assert!(rt; tells(&replay(rt.alloc(), second.as_slice(), 1), 2, 368));
    Ok(())
}

#[test]
fn batches_behind_a_rotation_are_damage(rt: HostRuntime) -> Result<(), Fail> {
    let more = log_of(rt.alloc(), &SECOND_BATCH)?;
    let log = joined(rt.alloc(), &[&LOG[..313], &[1], &ROTATION, more.as_slice()])?;
    assert!(rt; is_damaged(rt.alloc(), log.as_slice(), 1, 360));
    Ok(())
}

#[test]
fn other_labels_are_damage(rt: HostRuntime) -> Result<(), Fail> {
    assert!(rt; are_refused_labels(rt.alloc())?);
    let payload = labels_payload(rt.alloc(), &NAMELESS)?;
    let log = log_of(rt.alloc(), payload.as_slice())?;
    assert!(rt; tells(&replay(rt.alloc(), log.as_slice(), 1), 1, 128));
    Ok(())
}

#[test]
fn counts_beyond_the_bytes_are_damage_and_take_no_memory(rt: HostRuntime) -> Result<(), Fail> {
    assert!(rt; lies_are_refused(rt.alloc())?);
    let log = log_of(rt.alloc(), &EMPTY_ROW)?;
    assert!(rt; tells(&replay(rt.alloc(), log.as_slice(), 1), 1, 119));
    Ok(())
}

#[test]
fn numbers_end_below_two_to_the_63(rt: HostRuntime) -> Result<(), Fail> {
    let last = log_of(rt.alloc(), &LAST_BATCH)?;
    assert!(rt; tells(&replay(rt.alloc(), last.as_slice(), LAST_NUMBER), 1, 55));
    let past = log_of(rt.alloc(), &PAST_LAST_BATCH)?;
    assert!(rt; is_damaged(rt.alloc(), past.as_slice(), LAST_NUMBER, 0));
    Ok(())
}
