ghost use Rattle.std.specs.Prelude.{◌≡◌, ◌↔◌, ◌++◌, ◌∷◌, ◌+◌, ◌-◌, ◌<◌, ◌^◌, ℕ, List, [], Err, None, min, length};
ghost use Rattle.std.specs.Prelude.{IfOk, OnOk, IfSome, IsTrue, MatchOption};
ghost use Rattle.sha2.specs.Sha256.{sha256};
ghost use Rattle.fd_wal.specs.Frames.{framed, batches_size};
ghost use Rattle.fd_wal.specs.Gathering.{Gathers, AddsPayload, RefusesPayload};
ghost use Rattle.fd_wal.specs.Gathering.{PassesFrame, RefusesFrame, MayEnd};
ghost use Rattle.fd_wal.specs.Reading.{HasParts, IsCut};
ghost use Rattle.fd_wal.specs.Runs.{rows_in};

use crate::batch_writer::batch_bytes;
use crate::cursor::Cursor;
use crate::fault::ReadFault;
use crate::frame_writer::HEAD_BYTES;
use crate::limits::MOST_LOG_BYTES;
use crate::transactions_reader::transactions_of;
use byteorder::{ByteOrder, LittleEndian};
use fd_kinds::NumberedBatch;
use sha2::{Digest, Sha256};
use std::alloc::Global;

/// The digest and the payload of a frame, and the bytes behind it, of which there is one at least.
fn parts_in(bytes: &[u8]) -> Option<(&[u8], &[u8], &[u8])>
    ensures { MatchOption result (IsCut bytes.now)
        (λ r. HasParts bytes.now r.0.now r.1.now r.2.now) }
{
    if bytes.len() < HEAD_BYTES {
        return None;
    }
    let (size, rest) = bytes.split_at(4);
    let (digest, rest) = rest.split_at(32);
    let length = LittleEndian::read_u32(size) as usize;
    if rest.len() <= length {
        return None;
    }
    let (payload, behind) = rest.split_at(length);
    Some((digest, payload, behind))
}

/// Whether this is the SHA-256 of a payload.
fn is_digest(digest: &[u8], payload: &[u8]) -> bool
    ensures { IsTrue result ↔ (sha256 payload.now ≡ digest.now) }
{
    Sha256::digest(payload).as_slice() == digest
}

/// The payload of a frame with its length and its digest, and the bytes behind it, of which there
/// is one at least.
fn payload_in(bytes: &[u8]) -> Option<(&[u8], &[u8])>
    ensures found { IfSome result (λ r. bytes.now ≡ framed r.0.now ++ r.1.now) }
    ensures short { IfSome result (λ r. length r.0.now < 2 ^ 32) }
    ensures gate { IfSome result (λ r. 0 < length r.1.now) }
    ensures none { result ≡ None → (payload : List ℕ) → (rest : List ℕ)
        → length payload < 2 ^ 32 → 0 < length rest → bytes.now ≡ framed payload ++ rest → ⊥ }
{
    let (digest, payload, behind) = parts_in(bytes)?;
    if !is_digest(digest, payload) {
        return None;
    }
    Some((payload, behind))
}

/// What the frames of a log told so far.
#[derive(Debug, Drop)]
pub struct Gathered {
    pub batches: Vec<NumberedBatch>,
    /// The number that follows.
    pub next: u64,
    /// The bytes of the rows.
    pub bytes: u64,
    pub rotated: bool,
}

/// The bytes of the rows of batches, and 2^64 - 1 where they are more.
fn size_of(batches: &[NumberedBatch]) -> u64
    ensures { result ≡ min (batches_size (rows_in batches.now)) (2 ^ 64 - 1) }
{
    let mut size = 0u64;
    for batch in batches {
        size = size.saturating_add(batch_bytes(&batch.batch));
    }
    size
}

impl Gathered {
    /// Nothing yet, in front of the number `first`.
    pub(crate) fn new(alloc: Global, first: u64) -> Gathered
        ensures { Gathers first [] result }
    {
        Gathered {
            batches: Vec::new(alloc),
            next: first,
            bytes: 0,
            rotated: false,
        }
    }

    /// Adds the batches of transactions that the bytes behind their kind tell.
    fn add_transactions(&mut self, bytes: &[u8]) -> Result<(), ReadFault>
        requires short { length bytes.now + 2 < 2 ^ 32 }
        ensures ok { OnOk result (AddsPayload (1 ∷ 1 ∷ bytes.now) self.old self.new) }
        ensures refused { result ≡ Err ReadFault.Malformed
            → RefusesPayload (1 ∷ 1 ∷ bytes.now) self.old }
    {
        if self.rotated {
            return Err(ReadFault::Malformed);
        }
        let alloc = *self.batches.allocator();
        let batches = match transactions_of(alloc, bytes, self.next) {
            Ok(batches) => batches,
            Err(fault) => return Err(fault),
        };
        let size = self.bytes.saturating_add(size_of(batches.as_slice()));
        if size > MOST_LOG_BYTES {
            return Err(ReadFault::Malformed);
        }
        self.bytes = size;
        self.next += batches.len() as u64;
        self.batches.append(&mut batches.into_vec())?;
        Ok(())
    }

    /// Whether a rotation with this number may follow.
    fn may_end(&self, hi: u64) -> bool
        ensures { IsTrue result ↔ MayEnd self.now hi }
    {
        if self.rotated || self.batches.is_empty() {
            return false;
        }
        hi < self.next && hi == self.next - 1
    }

    /// Ends the log, as the bytes behind the kind of a rotation tell.
    fn end(&mut self, bytes: &[u8]) -> Result<(), ReadFault>
        ensures ok { OnOk result (AddsPayload (1 ∷ 2 ∷ bytes.now) self.old self.new) }
        ensures refused { result ≡ Err ReadFault.Malformed
            → RefusesPayload (1 ∷ 2 ∷ bytes.now) self.old }
    {
        let mut cursor = Cursor::new(bytes);
        let hi = cursor.number()?;
        if cursor.left() > 0 {
            return Err(ReadFault::Malformed);
        }
        if !self.may_end(hi) {
            return Err(ReadFault::Malformed);
        }
        self.rotated = true;
        Ok(())
    }

    /// Adds what a payload tells.
    fn add(&mut self, payload: &[u8]) -> Result<(), ReadFault>
        requires short { length payload.now < 2 ^ 32 }
        ensures ok { OnOk result (AddsPayload payload.now self.old self.new) }
        ensures refused { result ≡ Err ReadFault.Malformed → RefusesPayload payload.now self.old }
    {
        match payload {
            [1, 1, bytes @ ..] => self.add_transactions(bytes),
            [1, 2, bytes @ ..] => self.end(bytes),
            _ => Err(ReadFault::Malformed),
        }
    }

    /// Adds what the frame behind a gate tells, and answers the bytes behind the frame.
    pub(crate) fn frame<'a>(&mut self, bytes: &'a [u8]) -> Result<&'a [u8], ReadFault>
        ensures ok { IfOk result (λ rest. PassesFrame bytes.now rest.now self.old self.new) }
        ensures refused { result ≡ Err ReadFault.Malformed → RefusesFrame bytes.now self.old }
    {
        let Some((payload, behind)) = payload_in(bytes) else {
            return Err(ReadFault::Malformed);
        };
        match self.add(payload) {
            Ok(()) => Ok(behind),
            Err(fault) => Err(fault),
        }
    }
}
