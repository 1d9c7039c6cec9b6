ghost use Rattle.std.specs.Prelude.{◌≡◌, ◌≤◌, ◌++◌, length, slice_range, IfOk, OnOk, All};
ghost use Rattle.fd_wire.specs.Fields.{IsWithin, IsValueWithin};
ghost use Rattle.fd_proto.specs.Messages.{whole, wholes, wholes_in, spans, parts, part, message_in};

use crate::Place;
use fd_lists::{Items, NoMemory};
use fd_wire::{Field, FieldList, Varints, WireFault, WireValue, fields, varints};
use std::alloc::Global;

/// The last whole number of a field, or 0.
pub(crate) fn whole(list: &[Field], number: u32) -> u64
    ensures { result ≡ whole number list.now }
{
    let mut found = 0;
    for field in list {
        match field.value {
            WireValue::Varint(n) if field.number == number => found = n,
            _ => {}
        }
    }
    found
}

pub(crate) fn append(all: &mut Varints, more: &[u64]) -> Result<(), NoMemory>
    ensures { OnOk result (all.new ≡ all.old ++ more.now) }
{
    for n in more {
        all.push(*n)?;
    }
    Ok(())
}

fn add_wholes(
    alloc: Global,
    bytes: &[u8],
    value: WireValue,
    all: &mut Varints,
) -> Result<(), NoMemory>
    requires { IsValueWithin (length bytes.now) value }
    ensures { OnOk result (all.new ≡ all.old ++ wholes_in bytes.now value) }
{
    match value {
        WireValue::Varint(n) => all.push(n),
        WireValue::Span { start, end } => match varints(alloc, bytes, start, end) {
            Ok(packed) => append(all, packed.as_slice()),
            Err(WireFault::NoMemory) => Err(NoMemory),
            Err(_) => Ok(()),
        },
        _ => Ok(()),
    }
}

/// The whole numbers of a field, packed or not.
pub(crate) fn wholes(
    alloc: Global,
    bytes: &[u8],
    list: &[Field],
    number: u32,
) -> Result<Varints, NoMemory>
    requires { All (IsWithin (length bytes.now)) list.now }
    ensures { IfOk result (λ ns. ns ≡ wholes bytes.now number list.now) }
{
    let mut all = Items::new(alloc);
    for field in list {
        if field.number == number {
            add_wholes(alloc, bytes, field.value, &mut all)?;
        }
    }
    Ok(all)
}

/// Where the texts of a field lie.
pub(crate) fn spans(alloc: Global, list: &[Field], number: u32) -> Result<Items<Place>, NoMemory>
    ensures { IfOk result (λ places. places ≡ spans number list.now) }
{
    let mut all = Items::new(alloc);
    for field in list {
        match field.value {
            WireValue::Span { start, end } if field.number == number => {
                all.push(Place { start, end })?;
            }
            _ => {}
        }
    }
    Ok(all)
}

/// The fields of the message between these places.
pub(crate) fn message_between(
    alloc: Global,
    bytes: &[u8],
    start: usize,
    end: usize,
) -> Result<FieldList, NoMemory>
    requires begin { start ≤ end }
    requires within { end ≤ length bytes.now }
    ensures value { IfOk result (λ list.
        list ≡ message_in bytes.now (record { start = start; end = end })) }
    ensures within { IfOk result (All (IsWithin (length bytes.now))) }
{
    match fields(alloc, bytes, start, end) {
        Ok(list) => Ok(list),
        Err(WireFault::NoMemory) => Err(NoMemory),
        Err(_) => Ok(Items::new(alloc)),
    }
}

/// The messages of a field.
pub(crate) fn parts(
    alloc: Global,
    bytes: &[u8],
    list: &[Field],
    number: u32,
) -> Result<Items<FieldList>, NoMemory>
    requires { All (IsWithin (length bytes.now)) list.now }
    ensures value { IfOk result (λ all. all ≡ parts bytes.now number list.now) }
    ensures within { IfOk result (All (All (IsWithin (length bytes.now)))) }
{
    let mut all = Items::new(alloc);
    for field in list {
        match field.value {
            WireValue::Span { start, end } if field.number == number => {
                all.push(message_between(alloc, bytes, start, end)?)?;
            }
            _ => {}
        }
    }
    Ok(all)
}

fn append_fields(all: &mut FieldList, more: &[Field]) -> Result<(), NoMemory>
    ensures { OnOk result (all.new ≡ all.old ++ more.now) }
{
    for field in more {
        all.push(*field)?;
    }
    Ok(())
}

/// The single message of a field, whose fields are read as if they stood one after another.
pub(crate) fn part(
    alloc: Global,
    bytes: &[u8],
    list: &[Field],
    number: u32,
) -> Result<FieldList, NoMemory>
    requires { All (IsWithin (length bytes.now)) list.now }
    ensures { IfOk result (λ all. all ≡ part bytes.now number list.now) }
{
    let mut all = Items::new(alloc);
    for field in list {
        match field.value {
            WireValue::Span { start, end } if field.number == number => {
                let more = message_between(alloc, bytes, start, end)?;
                append_fields(&mut all, more.as_slice())?;
            }
            _ => {}
        }
    }
    Ok(all)
}
