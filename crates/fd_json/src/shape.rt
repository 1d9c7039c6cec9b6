ghost use Rattle.std.specs.Prelude.{◌≡◌, map, Option, option_map, option_and_then, Some, None, Err, IfOk, codes, ◌↔◌, ℕ, List};
ghost use Rattle.serde_json.specs.Data.{Data};
ghost use Rattle.serde_json.specs.Find.{get};
ghost use Rattle.serde_json.specs.View.{view};
ghost use Rattle.base64.specs.Engines.{standard};
ghost use Rattle.base64.specs.GeneralPurpose.{decoded_of, encode_of, IsBytes};
ghost use Rattle.fd_json.specs.Json.{text_or_empty, items_or_empty, each};
ghost use Rattle.fd_json.specs.Shape.{pair_of, labels_of as labels_spec, profile_text as profile_spec, sample_of, series_of, shape_of as shape_spec};

use crate::fault::Unread;
use base64::DecodeAllocError;
use base64::engine::general_purpose::STANDARD;
use fd_kinds::{Bytes, Items, NoMemory, Pair, Pairs, Text};
use serde_json::Value;
use std::alloc::Global;

/// What a JSON value of the right shape stands for.
trait ReadsJson {
    ghost meaning: { Data → Option Self };

    fn read(alloc: Global, value: &Value) -> Result<Self, Unread>
        ensures ok { IfOk result (λ it. meaning (view value.now) ≡ Some it) }
        ensures err { result ≡ Err Unread.BadShape → meaning (view value.now) ≡ None };
}

// The text of a member, empty where it is missing or null.
fn text_of<'v>(value: &'v Value, name: &str) -> Option<&'v str>
    ensures { option_map (λ s. s.now) result ≡ text_or_empty (get name.now (view value.now)) }
{
    match value.get(name) {
        None => Some(""),
        Some(Value::Null) => Some(""),
        Some(found) => found.as_str(),
    }
}

// The items of a member, none where it is missing or null.
#[tactic(auto, using(crate::proofs::TextLemmas::items_steps))]
fn items_of<'v>(value: &'v Value, name: &str) -> Option<&'v [Value]>
    ensures { option_map (λ s. map view s.now) result
        ≡ items_or_empty (get name.now (view value.now)) }
{
    match value.get(name) {
        None => Some(&[]),
        Some(Value::Null) => Some(&[]),
        Some(found) => match found.as_array() {
            Some(items) => Some(items.as_slice()),
            None => None,
        },
    }
}

#[tactic(auto, using(crate::proofs::EachSteps::each_steps))]
fn each_of<T: ReadsJson + Drop>(alloc: Global, items: &[Value]) -> Result<Items<T>, Unread>
    ensures ok { IfOk result (λ list. each T.meaning (map view items.now) ≡ Some list) }
    ensures err { result ≡ Err Unread.BadShape → each T.meaning (map view items.now) ≡ None }
{
    let mut list = Items::new(alloc);
    for item in items {
        list.push(T::read(alloc, item)?)?;
    }
    Ok(list)
}

// The list of a member, empty where it is missing or null.
fn list_of<T: ReadsJson + Drop>(
    alloc: Global,
    value: &Value,
    name: &str,
) -> Result<Items<T>, Unread>
    ensures ok { IfOk result (λ list.
        option_and_then (each T.meaning) (items_or_empty (get name.now (view value.now)))
        ≡ Some list) }
    ensures err { result ≡ Err Unread.BadShape
        → option_and_then (each T.meaning) (items_or_empty (get name.now (view value.now))) ≡ None }
{
    match items_of(value, name) {
        Some(items) => each_of(alloc, items),
        None => Err(Unread::BadShape),
    }
}

impl ReadsJson for Pair {
    ghost meaning = { pair_of };

    fn read(alloc: Global, value: &Value) -> Result<Pair, Unread> {
        if !value.is_object() {
            return Err(Unread::BadShape);
        }
        let Some(name) = text_of(value, "name") else {
            return Err(Unread::BadShape);
        };
        let Some(text) = text_of(value, "value") else {
            return Err(Unread::BadShape);
        };
        Ok(Pair {
            name: Text::of(alloc, name)?,
            value: Text::of(alloc, text)?,
        })
    }
}

fn labels_of(alloc: Global, value: &Value) -> Result<Pairs, Unread>
    ensures ok { IfOk result (λ ps. labels_spec (get (codes "labels") (view value.now)) ≡ Some ps) }
    ensures err { result ≡ Err Unread.BadShape
        → labels_spec (get (codes "labels") (view value.now)) ≡ None }
{
    match value.get("labels") {
        None => Ok(Items::new(alloc)),
        Some(Value::Null) => Ok(Items::new(alloc)),
        Some(labels) => {
            if !labels.is_object() {
                return Err(Unread::BadShape);
            }
            list_of(alloc, labels, "labels")
        }
    }
}

// The text of a sample's profile.
fn profile_text(value: &Value) -> Option<&str>
    ensures { option_map (λ s. s.now) result ≡ profile_spec (view value.now) }
{
    if !value.is_object() {
        return None;
    }
    match (value.get("rawProfile"), value.get("raw_profile")) {
        (Some(_), Some(_)) => None,
        (None, _) => text_of(value, "raw_profile"),
        (Some(_), None) => text_of(value, "rawProfile"),
    }
}

/// A text stands for the bytes of which it is the base64, with padding and with no bits left over
/// that are not 0, and for no others. It does nothing: its contract is the law.
#[tactic(auto, using(crate::proofs::TextLemmas::decoded_iff))]
pub fn base64_law()
    ensures { (s b : List ℕ) → IsBytes s → IsBytes b
        → (decoded_of standard s ≡ Some b) ↔ (s ≡ encode_of standard b) }
{}

// The bytes of a text in base64, none where it is no such text.
fn decoded(alloc: Global, text: &str) -> Result<Option<Bytes>, NoMemory>
    ensures { IfOk result (λ o. o ≡ decoded_of standard text.now) }
{
    match STANDARD.decode(alloc, text.as_bytes()) {
        Ok(bytes) => Ok(Some(Items::from_vec(bytes))),
        Err(DecodeAllocError::DecodeError(_)) => Ok(None),
        Err(DecodeAllocError::OutOfMemory) => Err(NoMemory),
    }
}

/// The profile of a sample, none where its text is no base64.
pub(crate) type SentProfile = Option<Bytes>;

impl ReadsJson for SentProfile {
    ghost meaning = { sample_of };

    fn read(alloc: Global, value: &Value) -> Result<SentProfile, Unread> {
        let Some(text) = profile_text(value) else {
            return Err(Unread::BadShape);
        };
        Ok(decoded(alloc, text)?)
    }
}

/// A series of a write body.
#[derive(Drop)]
pub(crate) struct SentSeries {
    pub labels: Pairs,
    pub profiles: Items<SentProfile>,
}

impl ReadsJson for SentSeries {
    ghost meaning = { series_of };

    fn read(alloc: Global, value: &Value) -> Result<SentSeries, Unread> {
        if !value.is_object() {
            return Err(Unread::BadShape);
        }
        Ok(SentSeries {
            labels: labels_of(alloc, value)?,
            profiles: list_of(alloc, value, "samples")?,
        })
    }
}

/// The series of a write body.
pub(crate) fn shape_of(alloc: Global, value: &Value) -> Result<Items<SentSeries>, Unread>
    ensures ok { IfOk result (λ ts. shape_spec (view value.now) ≡ Some ts) }
    ensures err { result ≡ Err Unread.BadShape → shape_spec (view value.now) ≡ None }
{
    if !value.is_object() {
        return Err(Unread::BadShape);
    }
    list_of(alloc, value, "series")
}
