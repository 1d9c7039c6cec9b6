ghost use Rattle.std.specs.Prelude.{◌≡◌, ◌≤◌, length, IfOk, All};
ghost use Rattle.fd_wire.specs.Fields.{IsWithin};
ghost use Rattle.fd_proto.specs.Shape.{flaw_between, first_flaw, value_flaw, packed_flaw};
ghost use Rattle.fd_proto.specs.MessageShapes.{shape_of, IsFlawAt};

use crate::message::{Holds, Message, held_in};
use fd_lists::NoMemory;
use fd_wire::{Field, WireFault, WireValue, fields, varints};
use std::alloc::Global;

/// The place of a failure, and none for want of memory.
fn place(fault: WireFault) -> Result<usize, NoMemory>
    ensures { IsFlawAt fault result }
{
    match fault {
        WireFault::Cut { at } | WireFault::LongVarint { at } | WireFault::BadKey { at } => Ok(at),
        WireFault::NoMemory => Err(NoMemory),
    }
}

fn packed(alloc: Global, bytes: &[u8], start: usize, end: usize) -> Result<Option<usize>, NoMemory>
    requires begin { start ≤ end }
    requires within { end ≤ length bytes.now }
    ensures { IfOk result (λ flaw. flaw ≡ packed_flaw bytes.now (WireValue.Span start end)) }
{
    match varints(alloc, bytes, start, end) {
        Ok(_) => Ok(None),
        Err(fault) => {
            let at = place(fault)?;
            Ok(Some(at))
        }
    }
}

/// The first flaw of the message between these places.
#[cycle(flaws)]
#[tactic(auto, unfolding(crate::specs::Shape::profile))]
pub(crate) fn flaw(
    alloc: Global,
    bytes: &[u8],
    message: Message,
    start: usize,
    end: usize,
) -> Result<Option<usize>, NoMemory>
    requires begin { start ≤ end }
    requires within { end ≤ length bytes.now }
    ensures { IfOk result (λ flaw. flaw ≡ flaw_between bytes.now (shape_of message) start end) }
{
    match fields(alloc, bytes, start, end) {
        Ok(list) => first_flaw(alloc, bytes, message, list.as_slice()),
        Err(fault) => {
            let at = place(fault)?;
            Ok(Some(at))
        }
    }
}

#[cycle(flaws)]
#[tactic(auto, unfolding(crate::specs::Shape::profile))]
fn first_flaw(
    alloc: Global,
    bytes: &[u8],
    message: Message,
    list: &[Field],
) -> Result<Option<usize>, NoMemory>
    requires { All (IsWithin (length bytes.now)) list.now }
    ensures { IfOk result (λ flaw.
        flaw ≡ first_flaw (value_flaw bytes.now (shape_of message)) list.now) }
{
    for field in list {
        if let Some(at) = flaw_in(alloc, bytes, message, *field)? {
            return Ok(Some(at));
        }
    }
    Ok(None)
}

#[cycle(flaws)]
#[tactic(auto, unfolding(crate::specs::Shape::profile))]
fn flaw_in(
    alloc: Global,
    bytes: &[u8],
    message: Message,
    field: Field,
) -> Result<Option<usize>, NoMemory>
    requires { IsWithin (length bytes.now) field }
    ensures { IfOk result (λ flaw. flaw ≡ value_flaw bytes.now (shape_of message) field) }
{
    match (held_in(message, field.number), field.value) {
        (Holds::Numbers, WireValue::Span { start, end }) => packed(alloc, bytes, start, end),
        (Holds::Part(inner), WireValue::Span { start, end }) => flaw(
            alloc, bytes, inner, start, end,
        ),
        _ => Ok(None),
    }
}
