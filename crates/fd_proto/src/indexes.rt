ghost use Rattle.std.specs.Prelude.{◌≡◌, ◌++◌, ◌∷◌, [], length, map, IfOk, OnOk, All};
ghost use Rattle.std.specs.List.{flat_map};
ghost use Rattle.fd_wire.specs.Fields.{IsWithin};
ghost use Rattle.fd_proto.specs.Messages.{whole, wholes, parts, part};
ghost use Rattle.fd_proto.specs.Shape.{text_indexes, sample, profile};
ghost use Rattle.fd_proto.specs.Indexes.{first_indexes, last_indexes};

use crate::contents::{append, parts, whole};
use fd_lists::{Items, NoMemory};
use fd_wire::{Field, FieldList, Varints};
use std::alloc::Global;

/// Adds the whole numbers of these fields.
fn add_of(list: &[Field], numbers: &[u32], all: &mut Varints) -> Result<(), NoMemory>
    ensures { OnOk result (all.new ≡ all.old ++ map (λ k. whole k list.now) numbers.now) }
{
    for number in numbers {
        all.push(whole(list, *number))?;
    }
    Ok(())
}

fn add_of_each(parts: &[FieldList], numbers: &[u32], all: &mut Varints) -> Result<(), NoMemory>
    ensures { OnOk result (all.new
        ≡ all.old ++ flat_map (λ list. map (λ k. whole k list) numbers.now) parts.now) }
{
    for part in parts {
        add_of(part.as_slice(), numbers, all)?;
    }
    Ok(())
}

fn add_of_sample(
    alloc: Global,
    bytes: &[u8],
    list: &[Field],
    all: &mut Varints,
) -> Result<(), NoMemory>
    requires { All (IsWithin (length bytes.now)) list.now }
    ensures { OnOk result (all.new ≡ all.old ++ text_indexes bytes.now sample list.now) }
{
    let labels = parts(alloc, bytes, list, 3)?;
    add_of_each(labels.as_slice(), &[1, 2, 4], all)
}

fn add_of_samples(
    alloc: Global,
    bytes: &[u8],
    samples: &[FieldList],
    all: &mut Varints,
) -> Result<(), NoMemory>
    requires { All (All (IsWithin (length bytes.now))) samples.now }
    ensures { OnOk result (all.new
        ≡ all.old ++ flat_map (text_indexes bytes.now sample) samples.now) }
{
    for part in samples {
        add_of_sample(alloc, bytes, part.as_slice(), all)?;
    }
    Ok(())
}

/// The messages of a profile that hold text indexes.
#[derive(Drop)]
pub(crate) struct Parts<'a> {
    pub types: &'a [FieldList],
    pub samples: &'a [FieldList],
    pub mappings: &'a [FieldList],
    pub functions: &'a [FieldList],
    pub period: &'a [Field],
    pub comments: &'a [u64],
}

fn first_indexes(
    alloc: Global,
    bytes: &[u8],
    all: &mut Varints,
    from: &Parts<'_>,
) -> Result<(), NoMemory>
    requires { All (All (IsWithin (length bytes.now))) from.now.samples.now }
    ensures { OnOk result (all.new ≡ all.old
        ++ first_indexes bytes.now from.now.types.now from.now.samples.now
        from.now.mappings.now from.now.functions.now) }
{
    add_of_each(from.types, &[1, 2], all)?;
    add_of_samples(alloc, bytes, from.samples, all)?;
    add_of_each(from.mappings, &[5, 6], all)?;
    add_of_each(from.functions, &[2, 3, 4], all)
}

fn last_indexes(list: &[Field], all: &mut Varints, from: &Parts<'_>) -> Result<(), NoMemory>
    ensures { OnOk result (all.new
        ≡ all.old ++ last_indexes list.now from.now.period.now from.now.comments.now) }
{
    add_of(list, &[7, 8], all)?;
    add_of(from.period, &[1, 2], all)?;
    append(all, from.comments)?;
    add_of(list, &[14], all)
}

/// The text indexes of a profile, whose parts are given.
#[tactic(auto, using(crate::proofs::IndexLists::indexes_joined))]
pub(crate) fn indexes(
    alloc: Global,
    bytes: &[u8],
    list: &[Field],
    from: &Parts<'_>,
) -> Result<Varints, NoMemory>
    requires within { All (All (IsWithin (length bytes.now))) from.now.samples.now }
    requires types { from.now.types.now ≡ parts bytes.now 1 list.now }
    requires samples { from.now.samples.now ≡ parts bytes.now 2 list.now }
    requires mappings { from.now.mappings.now ≡ parts bytes.now 3 list.now }
    requires functions { from.now.functions.now ≡ parts bytes.now 5 list.now }
    requires period { from.now.period.now ≡ part bytes.now 11 list.now }
    requires comments { from.now.comments.now ≡ wholes bytes.now 13 list.now }
    ensures { IfOk result (λ all. all ≡ text_indexes bytes.now profile list.now) }
{
    let mut all = Items::new(alloc);
    first_indexes(alloc, bytes, &mut all, from)?;
    last_indexes(list, &mut all, from)?;
    Ok(all)
}
