ghost use Rattle.std.specs.Prelude.{◌≡◌, true, false, not, map, IfOk, MatchOption};
ghost use Rattle.std.specs.List.{list_any};
ghost use Rattle.std.specs.Str.{is_utf8};
ghost use Rattle.fd_proto.specs.Messages.{text_in};
ghost use Rattle.fd_pprof.specs.Conditions.{is_too_long};

use crate::limits::MOST_TEXT_BYTES;
use fd_kinds::{Items, NoMemory, Text, Texts};
use fd_proto::Place;
use std::alloc::Global;

/// The bytes of a text.
pub(crate) fn text_bytes(bytes: &[u8], place: Place) -> &[u8]
    ensures { result.now ≡ text_in bytes.now place }
{
    let end = place.end.min(bytes.len());
    if place.start < end {
        &bytes[place.start..end]
    } else {
        &bytes[..0]
    }
}

/// The text of these bytes, where they are UTF-8.
#[tactic(auto, using(crate::proofs::Utf8::utf8_tests))]
fn text_of(alloc: Global, bytes: &[u8]) -> Result<Option<Text>, NoMemory>
    ensures { IfOk result (λ text. MatchOption text
        (is_utf8 bytes.now ≡ false)
        (λ t. (t ≡ bytes.now) × (is_utf8 bytes.now ≡ true))) }
{
    match std::str::from_utf8(bytes) {
        Ok(text) => Ok(Some(Text::of(alloc, text)?)),
        Err(_) => Ok(None),
    }
}

/// The string table, where each of its texts is UTF-8.
pub(crate) fn texts_of(
    alloc: Global,
    bytes: &[u8],
    places: &[Place],
) -> Result<Option<Texts>, NoMemory>
    ensures { IfOk result (λ texts. MatchOption texts
        (list_any (λ t. not (is_utf8 t)) (map (text_in bytes.now) places.now) ≡ true)
        (λ ts. (ts ≡ map (text_in bytes.now) places.now)
        × (list_any (λ t. not (is_utf8 t)) (map (text_in bytes.now) places.now) ≡ false))) }
{
    let mut all = Items::new(alloc);
    for place in places {
        match text_of(alloc, text_bytes(bytes, *place))? {
            Some(text) => all.push(text)?,
            None => return Ok(None),
        }
    }
    Ok(Some(all))
}

/// Some text is too long.
pub(crate) fn has_long_text(texts: &Texts) -> bool
    ensures { result ≡ list_any is_too_long texts.now }
{
    texts.as_slice().iter().any(|t| t.len() > MOST_TEXT_BYTES)
}
