ghost use Rattle.std.specs.Prelude.{◌≡◌, ◌+◌, ◌++◌, ◌<◌, ◌≤◌, ◌^◌, ◌==◌, ◌&&◌, ◌||◌, nat_le, length, IfOk, OnOk, FitsSigned};
ghost use Rattle.std.specs.Int.{w32};
ghost use Rattle.fd_thrift.specs.Format.{zigzag as zigzag_of, varint};
ghost use Rattle.fd_thrift.specs.Reader.{varint_at, unzigzag as unzigzag_of, Decodes};

use crate::{Bytes, NoMemory, ThriftFault};

/// A signed number as a natural one: 0, -1, 1, -2, .. as 0, 1, 2, 3, ..
pub(crate) fn zigzag(number: i64) -> u64
    ensures { result ≡ zigzag_of number }
{
    if number >= 0 {
        2 * (number as u64)
    } else {
        2 * (-(number + 1) as u64) + 1
    }
}

/// The signed number that stands as a natural one.
pub(crate) fn unzigzag(number: u64) -> i64
    ensures value { result ≡ unzigzag_of number }
    ensures narrow { number < 2 ^ 32 → FitsSigned w32 result }
{
    let half = (number / 2) as i64;
    if number % 2 == 0 { half } else { -half - 1 }
}

/// Whether a byte below 128 can't be the last one of a number below 2 ^ bits.
#[tactic(auto, using(crate::proofs::VarintLoop::seven_or_more))]
fn is_refused(later: bool, bits: u32, last: u64) -> bool
    requires { last < 128 }
    ensures { result ≡ ((later && (last == 0)) || nat_le (2 ^ bits) last) }
{
    (later && last == 0) || (bits < 7 && last >= 1 << bits)
}

/// The number below 2 ^ bits in front of the bytes, and the bytes behind it.
pub(crate) fn varint_of(bytes: &[u8], bits: u32) -> Result<(u64, &[u8]), ThriftFault>
    requires { bits ≤ 64 }
    ensures value { Decodes (λ n. (n.0, n.1.now)) result (varint_at bits bytes.now) }
    ensures below { IfOk result (λ n. n.0 < 2 ^ bits) }
    ensures shorter { IfOk result (λ n. length n.1.now < length bytes.now) }
{
    let mut value = 0u64;
    let mut weight = 1u64;
    let mut left = bits;
    for (k, byte) in bytes.iter().enumerate() {
        let byte = u64::from(*byte);
        if byte < 128 {
            if is_refused(k > 0, left, byte) {
                return Err(ThriftFault::BadSize);
            }
            return Ok((value + weight * byte, &bytes[k + 1..]));
        }
        if left <= 7 {
            return Err(ThriftFault::BadSize);
        }
        value += weight * (byte - 128);
        weight *= 128;
        left -= 7;
    }
    Err(ThriftFault::Cut)
}

/// Adds a number in its least number of bytes.
pub(crate) fn push_varint(out: &mut Bytes, number: u64) -> Result<(), NoMemory>
    ensures { OnOk result (out.new ≡ out.old ++ varint number) }
{
    let mut rest = number;
    while rest >= 128 {
        out.push((128 + rest % 128) as u8)?;
        rest /= 128;
    }
    out.push(rest as u8)
}
