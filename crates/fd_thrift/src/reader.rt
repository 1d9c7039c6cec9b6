ghost use Rattle.std.specs.Prelude.{◌≡◌, ◌≢◌, ℕ, Ok, Err, ◌<◌, ◌≤◌, ◌^◌, length, slice_range, IfOk, IfErr};
ghost use Rattle.fd_thrift.specs.Values.{Value};
ghost use Rattle.fd_thrift.specs.View.{view, items_view, fields_view};
ghost use Rattle.fd_thrift.specs.Reader.{binary_at, long_size_at, size_at, list_header_at, next_id as next_id_of, list_at, struct_at, value_at, read_at, Decodes, DecodesOrRunsOut, Begins, IsCutShort, StopsBy};

use crate::kind::{Kind, read_kind};
use crate::numbers::{unzigzag, varint_of};
use crate::{Bytes, ThriftFault, Tree, TreeField, TreeFields, Trees};
use std::alloc::Global;

/// How many levels a tree may have.
const LEVELS: usize = 8;

/// A length and a copy of so many bytes, and the bytes behind them.
#[tactic(auto, unfolding(crate::specs::Reader::binary_at))]
fn binary_of(alloc: Global, bytes: &[u8]) -> Result<(Bytes, &[u8]), ThriftFault>
    ensures value { DecodesOrRunsOut (λ b. (b.0, b.1.now)) result (binary_at bytes.now) }
    ensures shorter { IfOk result (λ b. length b.1.now ≤ length bytes.now) }
{
    let (size, rest) = varint_of(bytes, 64)?;
    if size > rest.len() as u64 {
        return Err(ThriftFault::Cut);
    }
    let (content, behind) = rest.split_at(size as usize);
    Ok((Bytes::from_slice(alloc, content)?, behind))
}

/// The size of a list in the long form of its header, and the bytes behind it.
fn long_size_of(bytes: &[u8]) -> Result<(u64, &[u8]), ThriftFault>
    ensures value { Decodes (λ n. (n.0, n.1.now)) result (long_size_at bytes.now) }
    ensures shorter { IfOk result (λ n. length n.1.now ≤ length bytes.now) }
{
    let (size, rest) = varint_of(bytes, 64)?;
    if size < 15 {
        return Err(ThriftFault::BadSize);
    }
    Ok((size, rest))
}

/// The size of a list from the upper half of its header's first byte, and the bytes behind it.
fn size_of(levels: usize, half: u8, kind: Kind, bytes: &[u8]) -> Result<(u64, &[u8]), ThriftFault>
    ensures value { Decodes (λ n. (n.0, n.1.now)) result (size_at levels half kind bytes.now) }
    ensures shorter { IfOk result (λ n. length n.1.now ≤ length bytes.now) }
{
    if half == 0 {
        if kind != Kind::Struct {
            return Err(ThriftFault::BadType);
        }
        return Ok((0, bytes));
    }
    if levels == 0 {
        return Err(ThriftFault::Deep);
    }
    if half == 15 {
        return long_size_of(bytes);
    }
    Ok((u64::from(half), bytes))
}

/// The size of a list and the type of its items, which may have so many levels, and the bytes
/// behind its header.
fn list_header_of(levels: usize, bytes: &[u8]) -> Result<((u64, Kind), &[u8]), ThriftFault>
    ensures value { Decodes (λ h. (h.0, h.1.now)) result (list_header_at levels bytes.now) }
    ensures shorter { IfOk result (λ h. length h.1.now ≤ length bytes.now) }
{
    let Some((header, rest)) = bytes.split_first() else {
        return Err(ThriftFault::Cut);
    };
    let kind = read_kind(*header % 16)?;
    let (size, rest) = size_of(levels, *header / 16, kind, rest)?;
    Ok(((size, kind), rest))
}

/// The id of the field behind the one with the id `last`.
fn next_id(last: u16, step: u8) -> Result<u16, ThriftFault>
    ensures value { result ≡ next_id_of last step }
    ensures below { IfOk result (λ id. id ≤ 32767) }
{
    let id = u32::from(last) + u32::from(step);
    if step == 0 || id > 32_767 {
        return Err(ThriftFault::BadType);
    }
    Ok(id as u16)
}

/// A value of this type with at most so many levels, and the bytes behind it.
#[cycle(read)]
fn value_of<'a>(
    alloc: Global,
    levels: usize,
    kind: Kind,
    bytes: &'a [u8],
) -> Result<(Tree, &'a [u8]), ThriftFault>
    ensures value { DecodesOrRunsOut (λ v. (view v.0, v.1.now)) result
        (value_at levels kind bytes.now) }
    ensures shorter { IfOk result (λ v. length v.1.now ≤ length bytes.now) }
{
    if levels == 0 {
        return Err(ThriftFault::Deep);
    }
    match kind {
        Kind::Whole32 => {
            let (number, rest) = varint_of(bytes, 32)?;
            Ok((Tree::Whole32(unzigzag(number) as i32), rest))
        }
        Kind::Whole64 => {
            let (number, rest) = varint_of(bytes, 64)?;
            Ok((Tree::Whole64(unzigzag(number)), rest))
        }
        Kind::Binary => {
            let (content, rest) = binary_of(alloc, bytes)?;
            Ok((Tree::Binary(content), rest))
        }
        Kind::List => {
            let (trees, rest) = list_of(alloc, levels - 1, bytes)?;
            Ok((Tree::List(trees), rest))
        }
        Kind::Struct => {
            let (fields, rest) = struct_of(alloc, levels - 1, bytes)?;
            Ok((Tree::Struct(fields), rest))
        }
    }
}

/// The items of a list, and the bytes behind them.
#[cycle(read)]
fn list_of<'a>(
    alloc: Global,
    levels: usize,
    bytes: &'a [u8],
) -> Result<(Trees, &'a [u8]), ThriftFault>
    ensures value { DecodesOrRunsOut (λ v. (items_view v.0.items, v.1.now)) result
        (list_at levels (value_at levels) bytes.now) }
    ensures shorter { IfOk result (λ v. length v.1.now ≤ length bytes.now) }
{
    let ((size, kind), mut rest) = list_header_of(levels, bytes)?;
    let mut trees = Vec::new(alloc);
    for _ in 0..size {
        let (tree, behind) = value_of(alloc, levels, kind, rest)?;
        trees.push(tree)?;
        rest = behind;
    }
    Ok((trees, rest))
}

/// The fields of a struct, and the bytes behind the byte that ends it.
#[cycle(read)]
fn struct_of<'a>(
    alloc: Global,
    levels: usize,
    bytes: &'a [u8],
) -> Result<(TreeFields, &'a [u8]), ThriftFault>
    ensures value { DecodesOrRunsOut (λ v. (fields_view v.0.items, v.1.now)) result
        (struct_at (value_at levels) bytes.now) }
    ensures shorter { IfOk result (λ v. length v.1.now ≤ length bytes.now) }
{
    let mut fields = Vec::new(alloc);
    let mut last = 0u16;
    let mut rest = bytes;
    while let Some((header, behind)) = rest.split_first() {
        if *header == 0 {
            return Ok((fields, behind));
        }
        let kind = read_kind(*header % 16)?;
        let id = next_id(last, *header / 16)?;
        let (tree, after) = value_of(alloc, levels, kind, behind)?;
        fields.push(TreeField {
            id: id as i16,
            tree,
        })?;
        last = id;
        rest = after;
    }
    Err(ThriftFault::Cut)
}

/// The tree that the bytes from `at` up to `end` begin with, and the place behind it.
#[tactic(auto, unfolding(crate::specs::Reader::read_at, crate::specs::Reader::tree_at))]
fn tree_of(alloc: Global, bytes: &[u8], at: usize, end: usize) -> Result<(Tree, usize), ThriftFault>
    requires begin { at ≤ end }
    requires within { end ≤ length bytes.now }
    ensures { DecodesOrRunsOut (λ r. (view r.0, r.1)) result
        (read_at at (slice_range bytes.now at end)) }
{
    let (tree, rest) = value_of(alloc, LEVELS, Kind::Struct, &bytes[at..end])?;
    Ok((tree, end - rest.len()))
}

/// The tree whose spelling stands at the place `at`, before `end`, and the place behind it
/// (`thrift-compact-protocol.md`, "Struct encoding"). Other bytes may follow there. Places count
/// bytes. No size or length that the bytes claim makes it take memory: a text's bytes have to be
/// there, and a list grows by one item after the other.
pub fn read(
    alloc: Global,
    bytes: &[u8],
    at: usize,
    end: usize,
) -> Result<(Tree, usize), ThriftFault>
    requires begin { at ≤ end }
    requires within { end ≤ length bytes.now }
    // What is read is spelled so.
    ensures found { IfOk result (λ r. Begins at (slice_range bytes.now at end) (view r.0) r.1) }
    // What is spelled so is read, unless memory runs out.
    ensures only { (v : Value) (after : ℕ) → Begins at (slice_range bytes.now at end) v after
        → DecodesOrRunsOut {Y = Value × ℕ} (λ r. (view r.0, r.1)) result (Ok (v, after)) }
    // The bytes are cut exactly where they are a front of a spelling, and not the whole of it.
    ensures cut { result ≡ Err ThriftFault.Cut → IsCutShort (slice_range bytes.now at end) }
    ensures front { IsCutShort (slice_range bytes.now at end)
        → DecodesOrRunsOut {Y = Value × ℕ} (λ r. (view r.0, r.1)) result (Err ThriftFault.Cut) }
    // Another fault is that of the first byte with which no spelling begins so.
    ensures first { IfErr result (λ fault. fault ≢ ThriftFault.Cut → fault ≢ ThriftFault.NoMemory
        → StopsBy fault (slice_range bytes.now at end)) }
    // Which fault it is, by the grammar.
    ensures exact { DecodesOrRunsOut (λ r. (view r.0, r.1)) result
        (read_at at (slice_range bytes.now at end)) }
{
    tree_of(alloc, bytes, at, end)
}
