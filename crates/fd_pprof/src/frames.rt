ghost use Rattle.std.specs.Prelude.{◌≡◌, ◌++◌, ◌<◌, ◌==◌, [], length, IfOk, OnOk, find, slice_get};
ghost use Rattle.std.specs.String.{string_bytes};
ghost use Rattle.std.specs.Option.{option_copied, unwrap_or};
ghost use Rattle.fd_pprof.specs.Frames.{hex_digit, hex_digits, hex_text, name_of, frame};
ghost use Rattle.fd_pprof.specs.Frames.{location_frames, stack};

use crate::catalog::Catalog;
use fd_kinds::{Items, NoMemory, Share, Stack, Text, Texts};
use fd_proto::{RawLocation, RawSample};
use std::alloc::Global;

#[tactic(auto, unfolding(crate::specs::Frames::hex_digit))]
fn hex_digit(n: u64) -> u8
    requires { n < 16 }
    ensures value { result ≡ hex_digit n }
    ensures ascii { result < 128 }
{
    if n < 10 {
        n as u8 + b'0'
    } else {
        n as u8 + (b'a' - 10)
    }
}

/// Adds the last so many digits of a number, in base 16.
fn push_hex(text: &mut String, count: u32, n: u64) -> Result<(), NoMemory>
    ensures { OnOk result (string_bytes text.new ≡ string_bytes text.old ++ hex_digits count n) }
{
    if count > 0 {
        push_hex(text, count - 1, n / 16)?;
        text.push(char::from(hex_digit(n % 16)))?;
    }
    Ok(())
}

#[tactic(auto, using(crate::proofs::Hex::hex_text_is))]
/// The frame of a line without a function.
fn address_text(alloc: Global, address: u64) -> Result<Text, NoMemory>
    ensures { IfOk result (λ text. text ≡ hex_text address) }
{
    let mut text = String::from_str(alloc, "0x")?;
    push_hex(&mut text, 16, address)?;
    Text::from_string(text)
}

/// The name of a function, and none where it has no text.
pub(crate) fn name_of<'a>(of: &Catalog, texts: &'a Texts, id: u64) -> Option<&'a Text>
    ensures { unwrap_or (option_copied result) []
        ≡ name_of texts.now (find (λ f. f.id == id) of.now.raw.functions) }
{
    match of.function(id) {
        Some(function) => texts.get(function.name as usize),
        None => None,
    }
}

/// The frame of a line that names the function `id`.
fn frame(
    alloc: Global,
    of: &Catalog,
    texts: &Texts,
    address: u64,
    id: u64,
) -> Result<Text, NoMemory>
    ensures { IfOk result (λ text. text ≡ frame texts.now of.now.raw address id) }
{
    if id == 0 {
        return address_text(alloc, address);
    }
    match name_of(of, texts, id) {
        Some(name) => name.share(),
        None => Ok(Text::new(alloc)),
    }
}

/// Adds a frame for each line, or one for a location without lines.
fn add_frames(
    alloc: Global,
    of: &Catalog,
    texts: &Texts,
    location: &RawLocation,
    all: &mut Texts,
) -> Result<(), NoMemory>
    ensures { OnOk result (all.new ≡ all.old ++ location_frames texts.now of.now.raw location.now) }
{
    if location.lines.len() == 0 {
        return all.push(address_text(alloc, location.address)?);
    }
    for id in location.lines.as_slice() {
        all.push(frame(alloc, of, texts, location.address, *id)?)?;
    }
    Ok(())
}

/// The frames of a sample, the leaf first, as a list that grew.
fn frames_of(
    alloc: Global,
    of: &Catalog,
    texts: &Texts,
    sample: &RawSample,
) -> Result<Texts, NoMemory>
    ensures { IfOk result (λ frames. frames ≡ stack texts.now of.now.raw sample.now) }
{
    let mut all = Items::new(alloc);
    for id in sample.locations.as_slice() {
        match of.location(*id) {
            Some(location) => add_frames(alloc, of, texts, location, &mut all)?,
            None => {}
        }
    }
    Ok(all)
}

/// The frames of a sample, the leaf first.
pub(crate) fn stack_of(
    alloc: Global,
    of: &Catalog,
    texts: &Texts,
    sample: &RawSample,
) -> Result<Stack, NoMemory>
    ensures { IfOk result (λ frames. frames ≡ stack texts.now of.now.raw sample.now) }
{
    Stack::of(frames_of(alloc, of, texts, sample)?)
}
