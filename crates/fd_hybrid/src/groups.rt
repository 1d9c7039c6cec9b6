ghost use Rattle.std.specs.Prelude.{◌≡◌, ℕ, ◌+◌, ◌*◌, ◌/◌, ◌%◌, ◌^◌, ◌<◌, ◌≤◌, ◌++◌, length, OnOk};
ghost use Rattle.fd_hybrid.specs.Digits.{number, digits, ahead};
ghost use Rattle.fd_hybrid.specs.Format.{Fit};

use crate::bits::Bits;
use crate::{Bytes, NoMemory};

/// The next byte, and what is left, of values that have `width` bits each. Values that are not
/// there count as 0.
fn byte_of(values: &[u32], bits: Bits, width: u32) -> (u8, Bits)
    requires least { 0 < width }
    requires most { width ≤ 32 }
    requires held { bits.count < 32 }
    requires fit { Fit width values.now }
    ensures byte { result.0 ≡ ahead width values.now bits.at bits.held bits.count % 2 ^ 8 }
    ensures rest { ahead width values.now result.1.at result.1.held result.1.count
        ≡ ahead width values.now bits.at bits.held bits.count / 2 ^ 8 }
    ensures held { result.1.count < 32 }
{
    let mut bits = bits;
    while bits.count < 8 {
        bits = if bits.at < values.len() {
            bits.with(u64::from(values[bits.at]), width, bits.at + 1)
        } else {
            bits.with(0, width, bits.at)
        };
    }
    (bits.lowest(8) as u8, bits.without(8))
}

/// Writes the lowest `size` bytes of the number that the values make, `width` bits each, the lowest
/// first.
pub(crate) fn push_digits(
    out: &mut Bytes,
    values: &[u32],
    width: u32,
    size: u32,
) -> Result<(), NoMemory>
    requires least { 0 < width }
    requires most { width ≤ 32 }
    requires fit { Fit width values.now }
    ensures { OnOk result (out.new ≡ out.old ++ digits 8 size (number width values.now)) }
{
    let mut bits = Bits::new();
    for _ in 0..size {
        let (byte, rest) = byte_of(values, bits, width);
        out.push(byte)?;
        bits = rest;
    }
    Ok(())
}

/// The next number of `width` bits, and what is left, of the bytes. Bytes that are not there count
/// as 0.
pub(crate) fn value_of(bytes: &[u8], bits: Bits, width: u32) -> (u32, Bits)
    requires most { width ≤ 32 }
    requires held { bits.count < 32 }
    ensures value { result.0 ≡ ahead 8 bytes.now bits.at bits.held bits.count % 2 ^ width }
    ensures rest { ahead 8 bytes.now result.1.at result.1.held result.1.count
        ≡ ahead 8 bytes.now bits.at bits.held bits.count / 2 ^ width }
    ensures held { result.1.count < 32 }
{
    let mut bits = bits;
    while bits.count < width {
        bits = if bits.at < bytes.len() {
            bits.with(u64::from(bytes[bits.at]), 8, bits.at + 1)
        } else {
            bits.with(0, 8, bits.at)
        };
    }
    (bits.lowest(width) as u32, bits.without(width))
}

/// The first number of `width` bits.
pub(crate) fn first_of(bytes: &[u8], width: u32) -> u32
    requires { width ≤ 32 }
    ensures { result ≡ number 8 bytes.now % 2 ^ width }
{
    value_of(bytes, Bits::new(), width).0
}

/// The eight values of a group, whose bytes these are. Bytes that are not there count as 0.
pub(crate) fn group_of(bytes: &[u8], width: u32) -> [u32; 8]
    requires { width ≤ 32 }
    ensures { result ≡ digits width 8 (number 8 bytes.now) }
{
    let (a, bits) = value_of(bytes, Bits::new(), width);
    let (b, bits) = value_of(bytes, bits, width);
    let (c, bits) = value_of(bytes, bits, width);
    let (d, bits) = value_of(bytes, bits, width);
    let (e, bits) = value_of(bytes, bits, width);
    let (f, bits) = value_of(bytes, bits, width);
    let (g, bits) = value_of(bytes, bits, width);
    let (h, _bits) = value_of(bytes, bits, width);
    [a, b, c, d, e, f, g, h]
}
