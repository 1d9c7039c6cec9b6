ghost use Rattle.std.specs.Prelude.{◌≡◌, ◌++◌, flat_map, map, decimal, IfOk, OnOk};
ghost use Rattle.fd_gen.specs.Profile.{cpu_nanoseconds as cpu_nanoseconds_of, profile, lists};
ghost use Rattle.fd_gen.specs.Profile.{functions, texts, name, location_id};
ghost use Rattle.fd_gen.specs.Profile.{sample_field, location_field, function_field, text_field};

use crate::draws::{FUNCTIONS, Sample};
use crate::fields::{put_item, put_number, put_span};
use fd_lists::{Bytes, NoMemory};
use itoa::Buffer;
use std::alloc::Global;

/// How much time lies between two samples, in nanoseconds.
const PERIOD: u64 = 10_000_000;

/// A second, in nanoseconds.
const SECOND: u64 = 1_000_000_000;

/// A text that ends with a number.
pub(crate) fn numbered(alloc: Global, front: &[u8], number: u32) -> Result<Bytes, NoMemory>
    ensures { IfOk result (λ text. text ≡ front.now ++ decimal number) }
{
    let mut buffer = Buffer::new();
    let mut text = Bytes::from_slice(alloc, front)?;
    text.extend(buffer.format(number).as_bytes())?;
    Ok(text)
}

/// The type of the values and of the period, by the indexes of its texts.
fn cpu_nanoseconds(alloc: Global) -> Result<Bytes, NoMemory>
    ensures { IfOk result (λ message. message ≡ cpu_nanoseconds_of) }
{
    let mut message = Bytes::new(alloc);
    put_number(&mut message, 1, 1)?;
    put_number(&mut message, 2, 2)?;
    Ok(message)
}

/// Adds the location of each function.
fn put_stack(out: &mut Bytes, functions: &[u32]) -> Result<(), NoMemory>
    ensures { OnOk result (out.new ≡ out.old ++ flat_map location_id functions.now) }
{
    for function in functions {
        put_item(out, 1, u64::from(*function) + 1)?;
    }
    Ok(())
}

/// Adds a sample.
fn put_sample(alloc: Global, out: &mut Bytes, sample: &Sample) -> Result<(), NoMemory>
    ensures { OnOk result (out.new ≡ out.old ++ sample_field sample.now) }
{
    let mut message = Bytes::new(alloc);
    put_stack(&mut message, sample.functions.as_slice())?;
    put_item(&mut message, 2, u64::from(sample.value))?;
    put_span(out, 2, message.as_slice())
}

/// Adds the samples.
fn put_samples(alloc: Global, out: &mut Bytes, samples: &[Sample]) -> Result<(), NoMemory>
    ensures { OnOk result (out.new ≡ out.old ++ flat_map sample_field samples.now) }
{
    for sample in samples {
        put_sample(alloc, out, sample)?;
    }
    Ok(())
}

/// Adds the location of a function, with one line.
fn put_location(alloc: Global, out: &mut Bytes, function: u32) -> Result<(), NoMemory>
    ensures { OnOk result (out.new ≡ out.old ++ location_field function) }
{
    let id = u64::from(function) + 1;
    let mut line = Bytes::new(alloc);
    put_number(&mut line, 1, id)?;
    let mut message = Bytes::new(alloc);
    put_number(&mut message, 1, id)?;
    put_span(&mut message, 4, line.as_slice())?;
    put_span(out, 4, message.as_slice())
}

/// Adds the locations.
fn put_locations(alloc: Global, out: &mut Bytes) -> Result<(), NoMemory>
    ensures { OnOk result (out.new ≡ out.old ++ flat_map location_field functions) }
{
    for function in 0..FUNCTIONS {
        put_location(alloc, out, function)?;
    }
    Ok(())
}

/// Adds a function, with the index of its name.
fn put_function(alloc: Global, out: &mut Bytes, function: u32) -> Result<(), NoMemory>
    ensures { OnOk result (out.new ≡ out.old ++ function_field function) }
{
    let mut message = Bytes::new(alloc);
    put_number(&mut message, 1, u64::from(function) + 1)?;
    put_number(&mut message, 2, u64::from(function) + 3)?;
    put_span(out, 5, message.as_slice())
}

/// Adds the functions.
fn put_functions(alloc: Global, out: &mut Bytes) -> Result<(), NoMemory>
    ensures { OnOk result (out.new ≡ out.old ++ flat_map function_field functions) }
{
    for function in 0..FUNCTIONS {
        put_function(alloc, out, function)?;
    }
    Ok(())
}

/// Adds the name of a function.
fn put_name(alloc: Global, out: &mut Bytes, function: u32) -> Result<(), NoMemory>
    ensures { OnOk result (out.new ≡ out.old ++ text_field (name function)) }
{
    let name = numbered(alloc, b"fn-", function)?;
    put_span(out, 6, name.as_slice())
}

/// Adds the names of the functions.
fn put_names(alloc: Global, out: &mut Bytes) -> Result<(), NoMemory>
    ensures { OnOk result (out.new ≡ out.old ++ flat_map text_field (map name functions)) }
{
    for function in 0..FUNCTIONS {
        put_name(alloc, out, function)?;
    }
    Ok(())
}

/// Adds the string table.
fn put_texts(alloc: Global, out: &mut Bytes) -> Result<(), NoMemory>
    ensures { OnOk result (out.new ≡ out.old ++ flat_map text_field texts) }
{
    put_span(out, 6, b"")?;
    put_span(out, 6, b"cpu")?;
    put_span(out, 6, b"nanoseconds")?;
    put_names(alloc, out)
}

/// Adds the samples, and what they stand on.
fn put_lists(alloc: Global, out: &mut Bytes, samples: &[Sample]) -> Result<(), NoMemory>
    ensures { OnOk result (out.new ≡ out.old ++ lists samples.now) }
{
    put_samples(alloc, out, samples)?;
    put_locations(alloc, out)?;
    put_functions(alloc, out)?;
    put_texts(alloc, out)
}

/// The profile of the body `k` with these samples.
pub(crate) fn profile_of(alloc: Global, k: u32, samples: &[Sample]) -> Result<Bytes, NoMemory>
    ensures { IfOk result (λ bytes. bytes ≡ profile k samples.now) }
{
    let kind = cpu_nanoseconds(alloc)?;
    let mut profile = Bytes::new(alloc);
    put_span(&mut profile, 1, kind.as_slice())?;
    put_lists(alloc, &mut profile, samples)?;
    put_number(&mut profile, 9, u64::from(k) * SECOND)?;
    put_span(&mut profile, 11, kind.as_slice())?;
    put_number(&mut profile, 12, PERIOD)?;
    Ok(profile)
}
