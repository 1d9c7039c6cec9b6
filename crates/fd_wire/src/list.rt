ghost use Rattle.std.specs.Prelude.{◌≡◌, List, Ok, ◌≤◌, length, slice_range, All, IfOk};
ghost use Rattle.fd_wire.specs.declared.field.Field.{Field};
ghost use Rattle.fd_wire.specs.Grammar.{Spells};
ghost use Rattle.fd_wire.specs.Fields.{IsWithin, Gives, fields_at, varints_at};

use crate::field::field_of;
use crate::numbers::varint_of;
use crate::{Field, WireFault};
use fd_lists::Items;
use std::alloc::Global;

/// The fields of a message, in order.
pub type FieldList = Items<Field>;

/// The fields that all of the bytes there spell.
fn all_fields(alloc: Global, bytes: &[u8], start: usize, end: usize) -> Result<FieldList, WireFault>
    requires begin { start ≤ end }
    requires within { end ≤ length bytes.now }
    ensures value { Gives result (fields_at start (slice_range bytes.now start end)) }
    ensures within { IfOk result (All (IsWithin (length bytes.now))) }
{
    let mut list = Items::new(alloc);
    let mut at = start;
    while at < end {
        let (field, after) = field_of(&bytes[at..end], at)?;
        list.push(field)?;
        at = after;
    }
    Ok(list)
}

/// The fields that the bytes from `start` up to `end` spell, one after another. A span is not read
/// further.
pub fn fields(alloc: Global, bytes: &[u8], start: usize, end: usize) -> Result<FieldList, WireFault>
    requires begin { start ≤ end }
    requires within { end ≤ length bytes.now }
    // What is read is spelled so.
    ensures found { IfOk result (Spells start (slice_range bytes.now start end)) }
    // What is spelled so is read, unless memory runs out.
    ensures only { (fs : List Field)
        → Spells start (slice_range bytes.now start end) fs → Gives result (Ok fs) }
    // Which fault it is.
    ensures exact { Gives result (fields_at start (slice_range bytes.now start end)) }
    ensures within { IfOk result (All (IsWithin (length bytes.now))) }
{
    all_fields(alloc, bytes, start, end)
}

/// Whole numbers as they stand in varints.
pub type Varints = Items<u64>;

/// The varints that the bytes from `start` up to `end` spell, as in a packed repeated field.
pub fn varints(alloc: Global, bytes: &[u8], start: usize, end: usize) -> Result<Varints, WireFault>
    requires begin { start ≤ end }
    requires within { end ≤ length bytes.now }
    ensures { Gives result (varints_at start (slice_range bytes.now start end)) }
{
    let mut list = Items::new(alloc);
    let mut at = start;
    while at < end {
        let (number, after) = varint_of(&bytes[at..end], at)?;
        list.push(number)?;
        at = after;
    }
    Ok(list)
}
