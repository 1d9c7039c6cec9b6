ghost use Rattle.std.specs.Prelude.{◌≡◌, ℕ, List, ◌<◌, ◌≤◌, ◌^◌, ◌++◌, ◌&&◌, ◌==◌, nat_le, length, take, replicate, OnOk, IfOk, IsErrOf};
ghost use Rattle.std.specs.List.{list_all};
ghost use Rattle.fd_hybrid.specs.Digits.{number};
ghost use Rattle.fd_hybrid.specs.Unpacker.{AppendsOrRunsOut, repeats, repeated_at, group_at, groups_at, fits_in, packed_at, run_at, runs_at, DecodesAllOrRunsOut};
ghost use Rattle.fd_hybrid.specs.Refusals.{Spells, IsCut, IsOverWidth, IsBad, Gives};

use crate::groups::{first_of, group_of};
use crate::header::header_of;
use crate::runs::Before;
use crate::stretch::equal_next_of;
use crate::{HybridFault, NoMemory, Values};
use std::alloc::Global;

/// The first `size` bytes, or all of them if they are fewer.
fn front(bytes: &[u8], size: usize) -> &[u8]
    ensures { result.now ≡ take size bytes.now }
{
    if bytes.len() < size {
        bytes
    } else {
        &bytes[..size]
    }
}

/// Adds so many copies of a value.
fn push_copies(values: &mut Values, value: u32, copies: usize) -> Result<(), NoMemory>
    ensures { OnOk result (values.new ≡ values.old ++ replicate copies value) }
{
    for _ in 0..copies {
        values.push(value)?;
    }
    Ok(())
}

/// Adds the values.
fn push_all(values: &mut Values, more: &[u32]) -> Result<(), NoMemory>
    ensures { OnOk result (values.new ≡ values.old ++ more.now) }
{
    for value in more {
        values.push(*value)?;
    }
    Ok(())
}

/// Whether the run before repeats the value.
fn repeats_value(before: Before, value: u32) -> bool
    ensures { result ≡ repeats before value }
{
    match before {
        Before::Repeated(repeated) => repeated == value,
        Before::Nothing | Before::Packed => false,
    }
}

/// The number of the first `size` bytes, the lowest first.
fn value_in(bytes: &[u8], size: usize) -> u32
    requires { size ≤ 4 }
    ensures { result ≡ number 8 (take size bytes.now) }
{
    let piece = front(bytes, size);
    first_of(piece, size as u32 * 8)
}

/// Whether the value has more than `width` bits.
#[tactic(auto, using(crate::proofs::Shifts::shifts))]
fn is_too_wide(value: u32, width: u8) -> bool
    requires { width ≤ 32 }
    ensures { result ≡ nat_le (2 ^ width) value }
{
    u64::from(value) >= 1u64 << width
}

/// Whether one repeated run may have so many copies where `left` values are left.
fn copies_fit(copies: u128, left: usize) -> bool
    ensures { result ≡ (nat_le 8 copies && nat_le copies left) }
{
    copies >= 8 && copies <= left as u128
}

/// Reads a repeated run of so many copies behind its header.
#[tactic(auto, unfolding(crate::specs::Unpacker::repeated_at))]
fn repeated_of<'a>(
    values: &mut Values,
    width: u8,
    left: usize,
    before: Before,
    copies: u128,
    bytes: &'a [u8],
) -> Result<(Before, &'a [u8]), HybridFault>
    requires least { 0 < width }
    requires most { width ≤ 32 }
    ensures { AppendsOrRunsOut (λ x. (x.0, x.1.now)) values.old values.new result
        (repeated_at width left before copies bytes.now) }
{
    let size = usize::from(width).div_ceil(8);
    let whole = bytes.len() >= size;
    let value = value_in(bytes, size);
    if whole && is_too_wide(value, width) {
        return Err(HybridFault::OverWidth);
    }
    if !copies_fit(copies, left) {
        return Err(HybridFault::BadRun);
    }
    if !whole {
        return Err(HybridFault::Cut);
    }
    if repeats_value(before, value) {
        return Err(HybridFault::BadRun);
    }
    push_copies(values, value, copies as usize)?;
    Ok((Before::Repeated(value), &bytes[size..]))
}

/// Whether all of the values are 0.
fn are_zero(values: &[u32]) -> bool
    ensures { result ≡ list_all (λ v. v == 0) values.now }
{
    values.iter().all(|value| *value == 0)
}

/// Reads a group of at most `left` values.
#[tactic(auto, unfolding(crate::specs::Unpacker::group_at))]
fn add_group<'a>(
    values: &mut Values,
    width: u8,
    left: usize,
    bytes: &'a [u8],
) -> Result<&'a [u8], HybridFault>
    requires least { 0 < width }
    requires most { width ≤ 32 }
    ensures { AppendsOrRunsOut (λ rest. rest.now) values.old values.new result
        (group_at width left bytes.now) }
{
    let size = usize::from(width);
    let whole = bytes.len() >= size;
    let group = group_of(front(bytes, size), u32::from(width));
    let taken = left.min(8);
    if !are_zero(&group[taken..]) {
        return Err(HybridFault::BadRun);
    }
    if !whole {
        return Err(HybridFault::Cut);
    }
    if equal_next_of(&group[..taken]) >= 8 {
        return Err(HybridFault::BadRun);
    }
    push_all(values, &group[..taken])?;
    Ok(&bytes[size..])
}

/// Reads so many groups, of at most `left` values.
fn groups_of<'a>(
    values: &mut Values,
    width: u8,
    left: usize,
    groups: u128,
    bytes: &'a [u8],
) -> Result<&'a [u8], HybridFault>
    requires least { 0 < width }
    requires most { width ≤ 32 }
    ensures { AppendsOrRunsOut (λ rest. rest.now) values.old values.new result
        (groups_at width groups left bytes.now) }
{
    let mut rest = bytes;
    let mut left = left;
    for _ in 0..groups {
        rest = add_group(values, width, left, rest)?;
        left = left.saturating_sub(8);
    }
    Ok(rest)
}

/// Whether so many groups take all of the values that are left, or leave eight or more.
fn fits(groups: u128, left: usize) -> bool
    ensures { result ≡ fits_in groups left }
{
    let left = left as u128;
    groups <= left && (left <= groups * 8 && groups * 8 < left + 8 || groups * 8 + 8 <= left)
}

/// Reads a packed run of so many groups behind its header.
#[tactic(auto, unfolding(crate::specs::Unpacker::packed_at))]
fn packed_of<'a>(
    values: &mut Values,
    width: u8,
    left: usize,
    before: Before,
    groups: u128,
    bytes: &'a [u8],
) -> Result<(Before, &'a [u8]), HybridFault>
    requires least { 0 < width }
    requires most { width ≤ 32 }
    ensures { AppendsOrRunsOut (λ x. (x.0, x.1.now)) values.old values.new result
        (packed_at width left before groups bytes.now) }
{
    if matches!(before, Before::Packed) || groups == 0 || !fits(groups, left) {
        return Err(HybridFault::BadRun);
    }
    let first_is_there = bytes.len() >= usize::from(width).div_ceil(8);
    if first_is_there && repeats_value(before, first_of(bytes, u32::from(width))) {
        return Err(HybridFault::BadRun);
    }
    let rest = groups_of(values, width, left, groups, bytes)?;
    Ok((Before::Packed, rest))
}

/// Reads the next run, which has at most `left` values.
#[tactic(auto, unfolding(crate::specs::Unpacker::run_at))]
fn run_of<'a>(
    values: &mut Values,
    width: u8,
    left: usize,
    before: Before,
    bytes: &'a [u8],
) -> Result<(Before, &'a [u8]), HybridFault>
    requires least { 0 < width }
    requires most { width ≤ 32 }
    requires some { 0 < length bytes.now }
    ensures { AppendsOrRunsOut (λ x. (x.0, x.1.now)) values.old values.new result
        (run_at width left before bytes.now) }
{
    let (number, rest) = header_of(bytes)?;
    if bytes[0] % 2 == 0 {
        repeated_of(values, width, left, before, number / 2, rest)
    } else {
        packed_of(values, width, left, before, number / 2, rest)
    }
}

/// The values that all of the bytes spell, of which there are `count`.
fn all_of(alloc: Global, bytes: &[u8], width: u8, count: usize) -> Result<Values, HybridFault>
    requires least { 0 < width }
    requires most { width ≤ 32 }
    ensures { DecodesAllOrRunsOut result
        (runs_at (length bytes.now) width count Before.Nothing bytes.now) }
{
    let mut values = Values::new(alloc);
    let mut rest = bytes;
    let mut before = Before::Nothing;
    while !rest.is_empty() {
        let left = count - values.len();
        (before, rest) = run_of(&mut values, width, left, before, rest)?;
    }
    if values.len() < count {
        return Err(HybridFault::Cut);
    }
    Ok(values)
}

/// Reads `count` values of `width` bits each, from 1 to 32, from their one spelling in hybrid runs
/// (Apache Parquet, Encodings.md, "Run Length Encoding / Bit-Packing Hybrid"), as `pack` writes it.
/// Each other spelling that Parquet allows is refused. Memory grows with the values that were read,
/// whatever `count` and the runs claim.
pub fn unpack(alloc: Global, bytes: &[u8], width: u8, count: usize) -> Result<Values, HybridFault>
    requires least { 0 < width }
    requires most { width ≤ 32 }
    // What is read is spelled so.
    ensures found { IfOk result (Spells width count bytes.now) }
    // What is spelled so is read, unless memory runs out.
    ensures only { (values : List ℕ) → Spells width count bytes.now values
        → Gives result (Ok values) }
    ensures cut { IsErrOf result HybridFault.Cut → IsCut width count bytes.now }
    ensures cut_only { IsCut width count bytes.now → Gives result (Err HybridFault.Cut) }
    ensures over_width { IsErrOf result HybridFault.OverWidth → IsOverWidth width count bytes.now }
    ensures over_width_only { IsOverWidth width count bytes.now
        → Gives result (Err HybridFault.OverWidth) }
    // All else is a bad run, and nothing else is.
    ensures bad_run { IsErrOf result HybridFault.BadRun → IsBad width count bytes.now }
    ensures bad_run_only { IsBad width count bytes.now → Gives result (Err HybridFault.BadRun) }
{
    all_of(alloc, bytes, width, count)
}
