ghost use Rattle.std.specs.Prelude.{◌≡◌, ◌≢◌, map, Some, None, Ok, Err, IfOk, IfErr};
ghost use Rattle.serde_json.specs.View.{view};
ghost use Rattle.fd_json.specs.Json.{json_of as json_spec};
ghost use Rattle.fd_json.specs.Body.{body_of, body_of_json, profiles_from, series_from};

use crate::fault::{BodyFault, Unread};
use crate::shape::{SentProfile, SentSeries, shape_of};
use fd_kinds::{Bytes, BytesList, Items, RawBody, RawSeries, RawSeriesList};
use serde_json::Value;
use std::alloc::Global;

// The JSON value that these bytes spell.
#[tactic(auto, using(crate::proofs::TextLemmas::json_of_text, crate::proofs::TextLemmas::json_of_other))]
fn json_of(alloc: Global, bytes: &[u8]) -> Result<Value, BodyFault>
    ensures ok { IfOk result (λ v. json_spec bytes.now ≡ Some (view v)) }
    ensures err { IfErr result (λ e. (e ≢ BodyFault.NoMemory)
        → (e ≡ BodyFault.NotJson) × (json_spec bytes.now ≡ None)) }
{
    match Value::from_slice(alloc, bytes) {
        Ok(value) => Ok(value),
        Err(e) => {
            if e.is_memory() {
                Err(BodyFault::NoMemory)
            } else {
                Err(BodyFault::NotJson)
            }
        }
    }
}

// The profiles of a series, or the first that is none.
#[tactic(auto, using(crate::proofs::BodySteps::decode_steps))]
fn profiles_of(alloc: Global, series: u64, sent: Items<SentProfile>) -> Result<BytesList, BodyFault>
    ensures ok { IfOk result (λ ps. profiles_from series 0 sent ≡ Ok ps) }
    ensures err { IfErr result (λ e. e ≢ BodyFault.NoMemory → profiles_from series 0 sent ≡ Err e) }
{
    let mut profiles = Items::new(alloc);
    let mut sample = 0;
    for one in sent.into_vec() {
        let Some(bytes) = one else {
            return Err(BodyFault::BadBase64 { series, sample });
        };
        profiles.push(bytes)?;
        sample += 1;
    }
    Ok(profiles)
}

#[tactic(auto, using(crate::proofs::BodySteps::collect_steps))]
fn bodies_of(alloc: Global, sent: Items<SentSeries>) -> Result<RawSeriesList, BodyFault>
    ensures ok { IfOk result (λ ss. series_from 0 sent ≡ Ok ss) }
    ensures err { IfErr result (λ e. e ≢ BodyFault.NoMemory → series_from 0 sent ≡ Err e) }
{
    let mut series = Items::new(alloc);
    let mut number = 0;
    for SentSeries { labels, profiles } in sent.into_vec() {
        let profiles = profiles_of(alloc, number, profiles)?;
        series.push(RawSeries { labels, profiles })?;
        number += 1;
    }
    Ok(series)
}

/// What the value of a write body means. It is let go once its profiles are decoded.
fn body_in(alloc: Global, value: Value) -> Result<RawBody, BodyFault>
    ensures ok { IfOk result (λ b. body_of_json (Some (view value)) ≡ Ok b) }
    ensures err { IfErr result (λ e. e ≢ BodyFault.NoMemory
        → body_of_json (Some (view value)) ≡ Err e) }
{
    let sent = match shape_of(alloc, &value) {
        Ok(sent) => sent,
        Err(Unread::BadShape) => return Err(BodyFault::BadShape),
        Err(Unread::NoMemory) => return Err(BodyFault::NoMemory),
    };
    let series = bodies_of(alloc, sent)?;
    Ok(RawBody { series })
}

/// The JSON value that these bytes spell, behind which they are let go.
fn json_of_owned(alloc: Global, bytes: Bytes) -> Result<Value, BodyFault>
    ensures ok { IfOk result (λ v. json_spec bytes ≡ Some (view v)) }
    ensures err { IfErr result (λ e. (e ≢ BodyFault.NoMemory)
        → (e ≡ BodyFault.NotJson) × (json_spec bytes ≡ None)) }
{
    json_of(alloc, bytes.as_slice())
}

/// Reads a write body, a JSON object (RFC 8259): `series` is a list of objects with `labels`, an
/// object whose `labels` lists objects with the texts `name` and `value`, and `samples`, a list of
/// objects with the text `rawProfile` or `raw_profile` in base64 (RFC 4648, section 4). A member
/// that is missing or null is empty, of a repeated one the last counts, and others are ignored.
///
/// The bytes are let go before the profiles are decoded, so that no more than the bytes and their
/// texts, or the texts and their profiles, stand in memory at once.
pub fn read_body(alloc: Global, bytes: Bytes) -> Result<RawBody, BodyFault>
    ensures ok { IfOk result (λ b. body_of bytes ≡ Ok b) }
    ensures err { IfErr result (λ e. e ≢ BodyFault.NoMemory → body_of bytes ≡ Err e) }
{
    body_in(alloc, json_of_owned(alloc, bytes)?)
}
