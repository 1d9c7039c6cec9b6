ghost use Rattle.std.specs.Prelude.{◌≡◌, pos, not, map, IfOk};
ghost use Rattle.std.specs.List.{list_any};
ghost use Rattle.std.specs.Ordering.{int_eq};
ghost use Rattle.fd_kinds.specs.LabelsOf.{labels_of};
ghost use Rattle.fd_pprof.specs.Frames.{text};
ghost use Rattle.fd_pprof.specs.Profile.{signed, value_type_of, pair_of, sample_of, profile_from};

use crate::frames::stack_of;
use crate::tables::Tables;
use crate::winners::winners;
use crate::{Profile, Sample, Samples, ValueType, ValueTypes, Wholes};
use fd_kinds::{Items, Labels, NoMemory, Pair, Pairs, Share, Text, Texts};
use fd_proto::{RawLabel, RawSample, RawType};
use std::alloc::Global;

/// The text of an index.
fn text(alloc: Global, texts: &Texts, at: u64) -> Result<Text, NoMemory>
    ensures { IfOk result (λ t. t ≡ text texts.now at) }
{
    match texts.get(at as usize) {
        Some(text) => text.share(),
        None => Ok(Text::new(alloc)),
    }
}

pub(crate) fn value_type(alloc: Global, texts: &Texts, raw: RawType) -> Result<ValueType, NoMemory>
    ensures { IfOk result (λ t. t ≡ value_type_of texts.now raw) }
{
    Ok(ValueType {
        kind: text(alloc, texts, raw.kind)?,
        unit: text(alloc, texts, raw.unit)?,
    })
}

fn value_types(alloc: Global, texts: &Texts, raw: &[RawType]) -> Result<ValueTypes, NoMemory>
    ensures { IfOk result (λ types. types ≡ map (value_type_of texts.now) raw.now) }
{
    let mut all = Items::new(alloc);
    for one in raw {
        all.push(value_type(alloc, texts, *one)?)?;
    }
    Ok(all)
}

/// Whole numbers in two's complement.
fn values(alloc: Global, raw: &[u64]) -> Result<Wholes, NoMemory>
    ensures { IfOk result (λ values. values ≡ map signed raw.now) }
{
    let mut all = Items::new(alloc);
    for n in raw {
        all.push(n.cast_signed())?;
    }
    Ok(all)
}

/// Some value is not 0.
pub(crate) fn has_value(raw: &[u64]) -> bool
    ensures { result ≡ list_any (λ v. not (int_eq v (pos 0))) (map signed raw.now) }
{
    for n in raw {
        if n.cast_signed() != 0 {
            return true;
        }
    }
    false
}

fn pair(alloc: Global, texts: &Texts, label: RawLabel) -> Result<Pair, NoMemory>
    ensures { IfOk result (λ p. p ≡ pair_of texts.now label) }
{
    Ok(Pair {
        name: text(alloc, texts, label.key)?,
        value: text(alloc, texts, label.text)?,
    })
}

fn pairs(alloc: Global, texts: &Texts, labels: &[RawLabel]) -> Result<Pairs, NoMemory>
    ensures { IfOk result (λ pairs. pairs ≡ map (pair_of texts.now) labels.now) }
{
    let mut pairs = Items::new(alloc);
    for label in labels {
        pairs.push(pair(alloc, texts, *label)?)?;
    }
    Ok(pairs)
}

/// The labels of a sample. Of labels that don't count no text is copied.
fn labels(alloc: Global, tables: &Tables, raw: &[RawLabel]) -> Result<Labels, NoMemory>
    ensures { IfOk result (λ labels. labels ≡ labels_of (map (pair_of tables.now.texts) raw.now)) }
{
    let winners = winners(alloc, tables, raw)?;
    let pairs = pairs(alloc, &tables.texts, winners.as_slice())?;
    Labels::from_pairs(pairs)
}

pub(crate) fn sample(alloc: Global, tables: &Tables, raw: &RawSample) -> Result<Sample, NoMemory>
    ensures { IfOk result (λ s. s ≡ sample_of tables.now.texts tables.now.catalog.raw raw.now) }
{
    let texts = &tables.texts;
    Ok(Sample {
        stack: stack_of(alloc, &tables.catalog, texts, raw)?,
        values: values(alloc, raw.values.as_slice())?,
        labels: labels(alloc, tables, raw.labels.as_slice())?,
    })
}

fn samples(alloc: Global, tables: &Tables) -> Result<Samples, NoMemory>
    ensures { IfOk result (λ all. all
        ≡ map (sample_of tables.now.texts tables.now.catalog.raw) tables.now.catalog.raw.samples) }
{
    let mut all = Items::new(alloc);
    for raw in tables.catalog.raw.samples.as_slice() {
        all.push(sample(alloc, tables, raw)?)?;
    }
    Ok(all)
}

/// The profile of the tables.
pub(crate) fn profile(alloc: Global, tables: &Tables) -> Result<Profile, NoMemory>
    ensures { IfOk result (λ p. p ≡ profile_from tables.now.texts tables.now.catalog.raw) }
{
    let raw = &tables.catalog.raw;
    let texts = &tables.texts;
    Ok(Profile {
        sample_types: value_types(alloc, texts, raw.sample_types.as_slice())?,
        samples: samples(alloc, tables)?,
        period_type: value_type(alloc, texts, raw.period_type)?,
        period: raw.period.cast_signed(),
        time_nanos: raw.time.cast_signed(),
        duration_nanos: raw.duration.cast_signed(),
    })
}
