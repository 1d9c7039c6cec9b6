ghost use Rattle.std.specs.Prelude.{◌≡◌, ◌++◌, OnOk};
ghost use Rattle.fd_gen.specs.Fields.{varint, key, item, number as number_of, span};

use fd_lists::{Bytes, NoMemory};

/// Adds a number in its least number of bytes (protobuf.dev, "Base 128 Varints").
fn put_varint(out: &mut Bytes, number: u64) -> Result<(), NoMemory>
    ensures { OnOk result (out.new ≡ out.old ++ varint number) }
{
    let mut rest = number;
    while rest >= 128 {
        out.push((128 + rest % 128) as u8)?;
        rest /= 128;
    }
    out.push(rest as u8)
}

/// Adds a number of a repeated field.
pub(crate) fn put_item(out: &mut Bytes, field: u32, number: u64) -> Result<(), NoMemory>
    ensures { OnOk result (out.new ≡ out.old ++ item field number) }
{
    put_varint(out, 8 * u64::from(field))?;
    put_varint(out, number)
}

/// Adds the number of a single field, which is left out where it is 0.
pub(crate) fn put_number(out: &mut Bytes, field: u32, number: u64) -> Result<(), NoMemory>
    ensures { OnOk result (out.new ≡ out.old ++ number_of field number) }
{
    if number == 0 {
        return Ok(());
    }
    put_item(out, field, number)
}

/// Adds a message or a text behind its length.
pub(crate) fn put_span(out: &mut Bytes, field: u32, bytes: &[u8]) -> Result<(), NoMemory>
    ensures { OnOk result (out.new ≡ out.old ++ span field bytes.now) }
{
    put_varint(out, 8 * u64::from(field) + 2)?;
    put_varint(out, bytes.len() as u64)?;
    out.extend(bytes)
}
