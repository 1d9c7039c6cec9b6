ghost use Rattle.std.specs.Prelude.{◌≡◌, length, map, IfOk, All};
ghost use Rattle.fd_wire.specs.Fields.{IsWithin};
ghost use Rattle.fd_proto.specs.Messages.{whole, parts};
ghost use Rattle.fd_proto.specs.Raw.{raw_type, raw_label, raw_sample, raw_location};
ghost use Rattle.fd_proto.specs.Raw.{raw_function, raw_profile, raw_of};

use crate::contents::{message_between, part, parts, spans, whole, wholes};
use crate::indexes::{Parts, indexes};
use crate::{Raw, RawFunction, RawLabel, RawLocation, RawSample, RawType};
use fd_lists::{Items, NoMemory};
use fd_wire::{Field, FieldList, Varints};
use std::alloc::Global;

pub(crate) fn raw_type(list: &[Field]) -> RawType
    ensures { result ≡ raw_type list.now }
{
    RawType {
        kind: whole(list, 1),
        unit: whole(list, 2),
    }
}

fn raw_label(list: &[Field]) -> RawLabel
    ensures { result ≡ raw_label list.now }
{
    RawLabel {
        key: whole(list, 1),
        text: whole(list, 2),
    }
}

fn raw_function(list: &[Field]) -> RawFunction
    ensures { result ≡ raw_function list.now }
{
    RawFunction {
        id: whole(list, 1),
        name: whole(list, 2),
    }
}

pub(crate) fn raw_types(alloc: Global, parts: &[FieldList]) -> Result<Items<RawType>, NoMemory>
    ensures { IfOk result (λ all. all ≡ map raw_type parts.now) }
{
    let mut all = Items::new(alloc);
    for part in parts {
        all.push(raw_type(part.as_slice()))?;
    }
    Ok(all)
}

pub(crate) fn raw_labels(alloc: Global, parts: &[FieldList]) -> Result<Items<RawLabel>, NoMemory>
    ensures { IfOk result (λ all. all ≡ map raw_label parts.now) }
{
    let mut all = Items::new(alloc);
    for part in parts {
        all.push(raw_label(part.as_slice()))?;
    }
    Ok(all)
}

pub(crate) fn raw_functions(
    alloc: Global,
    parts: &[FieldList],
) -> Result<Items<RawFunction>, NoMemory>
    ensures { IfOk result (λ all. all ≡ map raw_function parts.now) }
{
    let mut all = Items::new(alloc);
    for part in parts {
        all.push(raw_function(part.as_slice()))?;
    }
    Ok(all)
}

fn first_whole(list: &[Field]) -> u64
    ensures { result ≡ whole 1 list.now }
{
    whole(list, 1)
}

pub(crate) fn first_wholes(alloc: Global, parts: &[FieldList]) -> Result<Items<u64>, NoMemory>
    ensures { IfOk result (λ all. all ≡ map (whole 1) parts.now) }
{
    let mut all = Items::new(alloc);
    for part in parts {
        all.push(first_whole(part.as_slice()))?;
    }
    Ok(all)
}

fn raw_sample(alloc: Global, bytes: &[u8], list: &[Field]) -> Result<RawSample, NoMemory>
    requires { All (IsWithin (length bytes.now)) list.now }
    ensures { IfOk result (λ sample. sample ≡ raw_sample bytes.now list.now) }
{
    let labels = parts(alloc, bytes, list, 3)?;
    Ok(RawSample {
        locations: wholes(alloc, bytes, list, 1)?,
        values: wholes(alloc, bytes, list, 2)?,
        labels: raw_labels(alloc, labels.as_slice())?,
    })
}

fn raw_location(alloc: Global, bytes: &[u8], list: &[Field]) -> Result<RawLocation, NoMemory>
    requires { All (IsWithin (length bytes.now)) list.now }
    ensures { IfOk result (λ location. location ≡ raw_location bytes.now list.now) }
{
    let lines = parts(alloc, bytes, list, 4)?;
    Ok(RawLocation {
        id: whole(list, 1),
        mapping: whole(list, 2),
        address: whole(list, 3),
        lines: first_wholes(alloc, lines.as_slice())?,
    })
}

pub(crate) fn raw_samples(
    alloc: Global,
    bytes: &[u8],
    parts: &[FieldList],
) -> Result<Items<RawSample>, NoMemory>
    requires { All (All (IsWithin (length bytes.now))) parts.now }
    ensures { IfOk result (λ all. all ≡ map (raw_sample bytes.now) parts.now) }
{
    let mut all = Items::new(alloc);
    for part in parts {
        all.push(raw_sample(alloc, bytes, part.as_slice())?)?;
    }
    Ok(all)
}

pub(crate) fn raw_locations(
    alloc: Global,
    bytes: &[u8],
    parts: &[FieldList],
) -> Result<Items<RawLocation>, NoMemory>
    requires { All (All (IsWithin (length bytes.now))) parts.now }
    ensures { IfOk result (λ all. all ≡ map (raw_location bytes.now) parts.now) }
{
    let mut all = Items::new(alloc);
    for part in parts {
        all.push(raw_location(alloc, bytes, part.as_slice())?)?;
    }
    Ok(all)
}

fn raw_profile(alloc: Global, bytes: &[u8], list: &[Field]) -> Result<Raw, NoMemory>
    requires { All (IsWithin (length bytes.now)) list.now }
    ensures { IfOk result (λ raw. raw ≡ raw_profile bytes.now list.now) }
{
    let types = parts(alloc, bytes, list, 1)?;
    let samples = parts(alloc, bytes, list, 2)?;
    let mappings = parts(alloc, bytes, list, 3)?;
    let locations = parts(alloc, bytes, list, 4)?;
    let functions = parts(alloc, bytes, list, 5)?;
    let period = part(alloc, bytes, list, 11)?;
    let comments = wholes(alloc, bytes, list, 13)?;
    let from = Parts {
        types: types.as_slice(),
        samples: samples.as_slice(),
        mappings: mappings.as_slice(),
        functions: functions.as_slice(),
        period: period.as_slice(),
        comments: comments.as_slice(),
    };
    Ok(Raw {
        texts: spans(alloc, list, 6)?,
        indexes: indexes(alloc, bytes, list, &from)?,
        sample_types: raw_types(alloc, types.as_slice())?,
        samples: raw_samples(alloc, bytes, samples.as_slice())?,
        mappings: first_wholes(alloc, mappings.as_slice())?,
        locations: raw_locations(alloc, bytes, locations.as_slice())?,
        functions: raw_functions(alloc, functions.as_slice())?,
        period_type: raw_type(period.as_slice()),
        period: whole(list, 12),
        time: whole(list, 9),
        duration: whole(list, 10),
    })
}

#[tactic(auto, unfolding(crate::specs::Raw::raw_of))]
/// The profile that all of the bytes are, with its texts by their indexes.
pub(crate) fn raw_of(alloc: Global, bytes: &[u8]) -> Result<Raw, NoMemory>
    ensures { IfOk result (λ raw. raw ≡ raw_of bytes.now) }
{
    let list = message_between(alloc, bytes, 0, bytes.len())?;
    raw_profile(alloc, bytes, list.as_slice())
}
