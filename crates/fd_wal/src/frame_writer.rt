ghost use Rattle.std.specs.Prelude.{◌≡◌, ◌++◌, ◌+◌, ◌-◌, ◌*◌, ◌≤◌, ◌<◌, ◌^◌, ℕ, List, length, take, drop};
ghost use Rattle.std.specs.Prelude.{map, flat_map, slice_range, All, IfOk, OnOk};
ghost use Rattle.fd_kinds.specs.declared.row.Row.{Row};
ghost use Rattle.fd_wal.specs.Frames.{Transactions, Rotation, batch_spelling, framed, frame_bytes};
ghost use Rattle.fd_wal.specs.Frames.{IsBatch};
ghost use Rattle.fd_wal.specs.Logs.{AreTransactions};
ghost use Rattle.fd_wal.specs.Runs.{rows_in, first_number, frame_of, AreConsecutive, IsSmallBatch};
ghost use Rattle.fd_wal.specs.Runs.{transactions_head, spelled_payload, IsLongestRun, IsSpelling};

use crate::limits::MOST_PAYLOAD_BYTES;
use crate::row_writer::put_count;
use crate::spelling::Transaction;
use byteorder::{ByteOrder, LittleEndian};
use fd_kinds::{Batches, Bytes, BytesList, NoMemory, NumberedBatch, row_spelling_laws};
use sha2::{Digest, Sha256};
use std::alloc::Global;

/// The bytes of the length and of the digest, which stand before a payload.
pub(crate) const HEAD_BYTES: usize = 36;

/// The bytes of a payload before its transactions.
const TRANSACTIONS_HEAD_BYTES: u64 = 14;

/// A head to be filled, with room for a payload of so many bytes.
fn empty_frame(alloc: Global, size: usize) -> Result<Bytes, NoMemory>
    requires { size < 2 ^ 32 }
    ensures { IfOk result (λ out. length out ≡ 36) }
{
    let mut out = Bytes::new(alloc);
    out.reserve(HEAD_BYTES + size)?;
    out.extend(&[0; HEAD_BYTES])?;
    Ok(out)
}

/// Fills the head of a frame: the length of the payload behind it and the digest.
fn fill_head(frame: &mut [u8])
    requires head { 36 ≤ length frame.old }
    requires short { length frame.old < 36 + 2 ^ 32 }
    ensures { frame.new ≡ framed (drop 36 frame.old) }
{
    let length = (frame.len() - HEAD_BYTES) as u32;
    let digest = Sha256::digest(&frame[HEAD_BYTES..]);
    LittleEndian::write_u32(frame, length);
    frame[4..HEAD_BYTES].copy_from_slice(&digest);
}

/// The frame whose payload stands behind an empty head.
fn finished(frame: Bytes) -> Bytes
    requires head { 36 ≤ length frame }
    requires short { length frame < 36 + 2 ^ 32 }
    ensures { result ≡ framed (drop 36 frame) }
{
    let mut bytes = frame.into_vec();
    fill_head(&mut bytes);
    Bytes::from_vec(bytes)
}

/// The most transactions from the front that a payload holds, and the bytes of that payload.
fn longest_run<T: Transaction>(transactions: &[T]) -> (usize, u64)
    requires some { 0 < length transactions.now }
    requires small { All T.is_small transactions.now }
    ensures run { IsLongestRun (map T.spelling transactions.now) result.0 }
    ensures few { 4 * result.0 ≤ result.1 }
    ensures size { result.1 ≡ length (spelled_payload 0 (take result.0 (map T.spelling transactions.now))) }
{
    let mut size = TRANSACTIONS_HEAD_BYTES;
    let mut count = 0;
    for transaction in transactions {
        let more = transaction.size();
        if size + more > MOST_PAYLOAD_BYTES {
            return (count, size);
        }
        size += more;
        count += 1;
    }
    (count, size)
}

/// Adds what stands before the transactions in a payload.
fn put_head(out: &mut Bytes, first: u64, count: usize) -> Result<(), NoMemory>
    requires { count < 2 ^ 32 }
    ensures { OnOk result (out.new ≡ out.old ++ transactions_head first count) }
{
    out.extend(&[1, 1])?;
    out.extend(&first.to_le_bytes())?;
    put_count(out, count)
}

/// Adds transactions, one behind the other.
fn put_all<T: Transaction>(out: &mut Bytes, transactions: &[T]) -> Result<(), NoMemory>
    requires { All T.is_small transactions.now }
    ensures ok { OnOk result (out.new ≡ out.old ++ flat_map T.spelling transactions.now) }
    ensures sound { OnOk result (All T.is_sound transactions.now) }
{
    for transaction in transactions {
        transaction.put(out)?;
    }
    Ok(())
}

/// The frame of as many transactions from the front as a payload holds, the first of which has
/// the number `first`, and how many they are.
fn frame_in<T: Transaction>(
    alloc: Global,
    first: u64,
    transactions: &[T],
) -> Result<(Bytes, usize), NoMemory>
    requires some { 0 < length transactions.now }
    requires small { All T.is_small transactions.now }
    ensures run { IfOk result (λ r. IsLongestRun (map T.spelling transactions.now) r.1) }
    ensures written { IfOk result (λ r. r.0
        ≡ framed (spelled_payload first (take r.1 (map T.spelling transactions.now)))) }
    ensures sound { IfOk result (λ r. All T.is_sound (take r.1 transactions.now)) }
{
    let (count, size) = longest_run(transactions);
    let mut out = empty_frame(alloc, size as usize)?;
    put_head(&mut out, first, count)?;
    put_all(&mut out, &transactions[..count])?;
    Ok((finished(out), count))
}

/// The items from the place `from` on.
fn rest_of<T>(items: &[T], from: usize) -> &[T]
    requires { from ≤ length items.now }
    ensures { result.now ≡ drop from items.now }
{
    let (_front, rest) = items.split_at(from);
    rest
}

/// The number of the first of batches.
fn number_of(run: &[NumberedBatch]) -> u64
    requires { 0 < length run.now }
    ensures { result ≡ first_number run.now }
{
    run[0].number
}

/// The frame without its gate of the batches from the place `from` on, as many as the most bytes
/// of a payload allow, and the place behind them.
pub fn transactions(
    alloc: Global,
    batches: &Batches,
    from: usize,
) -> Result<(Bytes, usize), NoMemory>
    requires from { from < length batches.now }
    requires consecutive { AreConsecutive (drop from batches.now) }
    requires below { first_number (drop from batches.now) + (length batches.now - from) ≤ 2 ^ 63 }
    requires small { All IsSmallBatch (drop from batches.now) }
    ensures run { IfOk result (λ r. IsLongestRun
        (map batch_spelling (rows_in (drop from batches.now))) (r.1 - from)) }
    ensures written { IfOk result (λ r. r.0
        ≡ frame_bytes (frame_of (slice_range batches.now from r.1))) }
    ensures transactions { IfOk result (λ r. AreTransactions
        (first_number (drop from batches.now)) (rows_in (slice_range batches.now from r.1))) }
{
    row_spelling_laws();
    let run = rest_of(batches.as_slice(), from);
    let first = number_of(run);
    let (frame, count) = frame_in(alloc, first, run)?;
    Ok((frame, from + count))
}

/// The same of batches that were spelled before, each by `transaction`. The first from the place
/// `from` on has the number `first`.
pub fn spelled_transactions(
    alloc: Global,
    first: u64,
    spellings: &BytesList,
    from: usize,
) -> Result<(Bytes, usize), NoMemory>
    requires from { from < length spellings.now }
    requires below { first + (length spellings.now - from) ≤ 2 ^ 63 }
    requires batches { All IsSpelling (drop from spellings.now) }
    ensures run { IfOk result (λ r. IsLongestRun (drop from spellings.now) (r.1 - from)) }
    ensures written { (batches : List (List Row))
        → drop from spellings.now ≡ map batch_spelling batches
        → IfOk result (λ r. r.0 ≡ frame_bytes (Transactions first (take (r.1 - from) batches))) }
    ensures transactions { (batches : List (List Row))
        → drop from spellings.now ≡ map batch_spelling batches → All IsBatch batches
        → IfOk result (λ r. AreTransactions first (take (r.1 - from) batches)) }
{
    row_spelling_laws();
    let run = rest_of(spellings.as_slice(), from);
    let (frame, count) = frame_in(alloc, first, run)?;
    Ok((frame, from + count))
}

/// The frame without its gate that ends a log whose greatest number is `hi`.
pub fn rotation(alloc: Global, hi: u64) -> Result<Bytes, NoMemory>
    requires some { 0 < hi }
    requires below { hi < 2 ^ 63 }
    ensures { IfOk result (λ frame. frame ≡ frame_bytes (Rotation hi)) }
{
    let mut out = empty_frame(alloc, 10)?;
    out.extend(&[1, 2])?;
    out.extend(&hi.to_le_bytes())?;
    Ok(finished(out))
}
