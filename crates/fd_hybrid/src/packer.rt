ghost use Rattle.std.specs.Prelude.{◌≡◌, ◌<◌, ◌≤◌, length, take, drop, IfOk};
ghost use Rattle.fd_hybrid.specs.Runs.{equal_next};
ghost use Rattle.fd_hybrid.specs.Format.{IsSpelling, Fit};
ghost use Rattle.fd_hybrid.specs.Packer.{group_count, PutsRun, PutsGroups};

use crate::groups::push_digits;
use crate::header::push_varint;
use crate::stretch::equal_next_of;
use crate::{Bytes, NoMemory};
use std::alloc::Global;

/// The next eight values, or all if they are fewer, and the values behind them.
fn next_group(values: &[u32]) -> (&[u32], &[u32])
    ensures group { result.0.now ≡ take 8 values.now }
    ensures behind { result.1.now ≡ drop 8 values.now }
{
    values.split_at(values.len().min(8))
}

/// How many groups the next packed run has.
fn group_count_of(values: &[u32]) -> usize
    ensures { result ≡ group_count (length values.now) values.now }
{
    let mut groups = 0;
    let mut rest = values;
    while !rest.is_empty() && equal_next_of(rest) < 8 {
        rest = next_group(rest).1;
        groups += 1;
    }
    groups
}

/// Writes so many groups of eight values, the last filled up with zeros, and answers what is left.
fn push_groups<'a>(
    out: &mut Bytes,
    values: &'a [u32],
    width: u8,
    groups: usize,
) -> Result<&'a [u32], NoMemory>
    requires least { 0 < width }
    requires most { width ≤ 32 }
    requires fit { Fit width values.now }
    ensures { IfOk result (λ rest. PutsGroups width groups out.old out.new values.now rest.now) }
{
    let mut rest = values;
    for _ in 0..groups {
        let (group, others) = next_group(rest);
        push_digits(out, group, u32::from(width), u32::from(width))?;
        rest = others;
    }
    Ok(rest)
}

/// Writes the next stretch, so many equal values, as a repeated run, and answers the values behind
/// it.
fn push_repeated<'a>(
    out: &mut Bytes,
    values: &'a [u32],
    width: u8,
    copies: usize,
) -> Result<&'a [u32], NoMemory>
    requires least { 0 < width }
    requires most { width ≤ 32 }
    requires fit { Fit width values.now }
    requires all { copies ≡ equal_next values.now }
    requires many { 8 ≤ copies }
    requires within { copies ≤ length values.now }
    ensures run { IfOk result (λ rest. PutsRun width out.old out.new values.now rest.now) }
    ensures fit { IfOk result (λ rest. Fit width rest.now) }
{
    push_varint(out, copies as u128 * 2)?;
    push_digits(
        out,
        &values[..1],
        u32::from(width),
        u32::from(width).div_ceil(8),
    )?;
    Ok(&values[copies..])
}

/// Writes the next packed run, and answers the values behind it.
fn push_packed<'a>(out: &mut Bytes, values: &'a [u32], width: u8) -> Result<&'a [u32], NoMemory>
    requires least { 0 < width }
    requires most { width ≤ 32 }
    requires fit { Fit width values.now }
    requires some { 0 < length values.now }
    requires few { equal_next values.now < 8 }
    ensures run { IfOk result (λ rest. PutsRun width out.old out.new values.now rest.now) }
    ensures fit { IfOk result (λ rest. Fit width rest.now) }
{
    let groups = group_count_of(values);
    push_varint(out, groups as u128 * 2 + 1)?;
    let rest = push_groups(out, values, width, groups)?;
    Ok(rest)
}

/// Writes the next run, and answers the values behind it.
fn push_run<'a>(out: &mut Bytes, values: &'a [u32], width: u8) -> Result<&'a [u32], NoMemory>
    requires least { 0 < width }
    requires most { width ≤ 32 }
    requires fit { Fit width values.now }
    requires some { 0 < length values.now }
    ensures run { IfOk result (λ rest. PutsRun width out.old out.new values.now rest.now) }
    ensures fit { IfOk result (λ rest. Fit width rest.now) }
{
    let copies = equal_next_of(values);
    if copies >= 8 {
        push_repeated(out, values, width, copies)
    } else {
        push_packed(out, values, width)
    }
}

/// The one spelling of the values in hybrid runs (Apache Parquet, Encodings.md, "Run Length
/// Encoding / Bit-Packing Hybrid"), `width` bits each, from 1 to 32, with no length before it. Of
/// the spellings that Parquet allows it is this one, which is our own choice, from left to right:
/// where eight or more equal values stand next, all of that stretch are one repeated run; otherwise
/// groups of eight go into one packed run, until no value is left or eight or more equal values
/// stand next. A last group is filled up with zeros. No values give no bytes.
pub fn pack(alloc: Global, values: &[u32], width: u8) -> Result<Bytes, NoMemory>
    requires least { 0 < width }
    requires most { width ≤ 32 }
    requires fit { Fit width values.now }
    ensures { IfOk result (IsSpelling width values.now) }
{
    let mut out = Bytes::new(alloc);
    let mut rest = values;
    while !rest.is_empty() {
        rest = push_run(&mut out, rest, width)?;
    }
    Ok(out)
}
