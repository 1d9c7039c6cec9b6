ghost use Rattle.std.specs.Prelude.{◌≡◌, ◌<◌, ◌↔◌, IsTrue, OnOk};
ghost use Rattle.fd_hybrid.specs.Format.{AddsVarint};
ghost use Rattle.fd_hybrid.specs.Unpacker.{capped_at, Decodes};

use crate::{Bytes, HybridFault, NoMemory};

/// Writes a number as a varint, in the least number of bytes.
pub(crate) fn push_varint(out: &mut Bytes, number: u128) -> Result<(), NoMemory>
    ensures { OnOk result (AddsVarint out.old out.new number) }
{
    let mut rest = number;
    while rest >= 128 {
        out.push((rest % 128) as u8 + 128)?;
        rest /= 128;
    }
    out.push(rest as u8)?;
    Ok(())
}

/// Whether a varint is longer than it need be where this is its byte at the place `k`: a last byte
/// of 0 behind others adds nothing.
fn is_needless(byte: u8, k: usize) -> bool
    ensures { IsTrue result ↔ ((byte ≡ 0) × (0 < k)) }
{
    byte == 0 && k > 0
}

/// The header at the front, and the bytes after it. Where the bytes end inside of it, it is read as
/// if the byte 1 stood next. A number above 2^128 - 1 is taken for that.
pub(crate) fn header_of(bytes: &[u8]) -> Result<(u128, &[u8]), HybridFault>
    ensures { Decodes (λ header. (header.0, header.1.now)) result (capped_at bytes.now) }
{
    let mut number = 0u128;
    let mut weight = 1u128;
    for (k, byte) in bytes.iter().enumerate() {
        if is_needless(*byte, k) {
            return Err(HybridFault::BadRun);
        }
        number = number.saturating_add(weight.saturating_mul(u128::from(*byte % 128)));
        if *byte < 128 {
            return Ok((number, &bytes[k + 1..]));
        }
        weight = weight.saturating_mul(128);
    }
    Ok((number.saturating_add(weight), &bytes[bytes.len()..]))
}
