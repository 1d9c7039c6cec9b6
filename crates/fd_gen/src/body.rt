ghost use Rattle.std.specs.Prelude.{◌≡◌, ◌++◌, IfOk, OnOk};
ghost use Rattle.fd_gen.specs.Body.{label, job_label, environment, labels, body, made};

use crate::draws::{Choices, draw_choices};
use crate::profile::{numbered, profile_of};
use base64::engine::general_purpose::STANDARD;
use fd_lists::{Bytes, NoMemory};
use rand_pcg::Pcg32;
use std::alloc::Global;

/// Adds a label. Neither its name nor its value has a byte that JSON escapes.
fn put_label(out: &mut Bytes, name: &[u8], value: &[u8]) -> Result<(), NoMemory>
    ensures { OnOk result (out.new ≡ out.old ++ label name.now value.now) }
{
    out.extend(b"{\"name\":\"")?;
    out.extend(name)?;
    out.extend(b"\",\"value\":\"")?;
    out.extend(value)?;
    out.extend(b"\"}")
}

/// Adds the label that only production has.
fn put_environment(out: &mut Bytes, is_production: bool) -> Result<(), NoMemory>
    ensures { OnOk result (out.new ≡ out.old ++ environment is_production) }
{
    if !is_production {
        return Ok(());
    }
    out.extend(b",")?;
    put_label(out, b"env", b"prod")
}

/// Adds the label of the job.
fn put_job(alloc: Global, out: &mut Bytes, job: u32) -> Result<(), NoMemory>
    ensures { OnOk result (out.new ≡ out.old ++ job_label job) }
{
    let value = numbered(alloc, b"job-", job)?;
    put_label(out, b"job", value.as_slice())
}

/// Adds the labels of the series.
fn put_labels(alloc: Global, out: &mut Bytes, choices: &Choices) -> Result<(), NoMemory>
    ensures { OnOk result (out.new ≡ out.old ++ labels choices.now) }
{
    put_label(out, b"__name__", b"gen_cpu")?;
    out.extend(b",")?;
    put_job(alloc, out, choices.job)?;
    put_environment(out, choices.is_production)
}

/// The body `k` of these choices.
fn body_of(alloc: Global, k: u32, choices: &Choices) -> Result<Bytes, NoMemory>
    ensures { IfOk result (λ text. text ≡ body k choices.now) }
{
    let profile = profile_of(alloc, k, choices.samples.as_slice())?;
    let base64 = STANDARD.encode(alloc, profile.as_slice())?;
    let mut text = Bytes::new(alloc);
    text.extend(b"{\"series\":[{\"labels\":{\"labels\":[")?;
    put_labels(alloc, &mut text, choices)?;
    text.extend(b"]},\"samples\":[{\"rawProfile\":\"")?;
    text.extend(base64.as_bytes())?;
    text.extend(b"\"}]}]}")?;
    Ok(text)
}

/// The made body `k`, from the next words of the generator: the compact JSON of a write of one
/// series with one profile of the time `k` seconds after 1970 (`docs/API.md`). The generator then
/// stands behind what was drawn. Where memory is wanting some of it may have been drawn, and which
/// words the generator gives from then on is not said.
pub fn made_body(alloc: Global, rng: &mut Pcg32, k: u32) -> Result<Bytes, NoMemory>
    ensures body { IfOk result (λ text. text ≡ (made k rng.old).body) }
    ensures generator { OnOk result (rng.new ≡ (made k rng.old).generator) }
{
    let choices = draw_choices(alloc, rng)?;
    body_of(alloc, k, &choices)
}
