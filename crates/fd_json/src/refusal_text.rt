ghost use Rattle.std.specs.Prelude.{◌≡◌, IfOk, OnOk};
ghost use Rattle.serde_json.specs.Written.{compact_text};
ghost use Rattle.fd_json.specs.Faults.{bare as bare_json, numbered as numbered_json, detailed as detailed_json, in_series as in_series_json, placed as placed_json, at_byte as at_byte_json, parameter_name, refusal_json, fault_json};
ghost use Rattle.fd_json.specs.Tokens.{Adds, tokens_of};

use crate::refusal::{Fault, Fields, Parameter, row};
use crate::texts::text_of;
use crate::writer::{WritesJson, begin_object, end_object, member, text_member};
use fd_kinds::{Bytes, NoMemory};
use itoa::Buffer;
use json::Writer;
use std::alloc::Global;

fn bare(out: &mut Writer, name: &str) -> Result<(), NoMemory>
    ensures { OnOk result (Adds out.old out.new (tokens_of (bare_json name.now))) }
{
    begin_object(out)?;
    text_member(out, "error", name)?;
    end_object(out)
}

fn numbered(out: &mut Writer, key: &str, n: u64, name: &str) -> Result<(), NoMemory>
    ensures { OnOk result (Adds out.old out.new (tokens_of (numbered_json key.now n name.now))) }
{
    begin_object(out)?;
    member(out, key, &n)?;
    text_member(out, "error", name)?;
    end_object(out)
}

fn detailed(out: &mut Writer, name: &str, key: &str, text: &str) -> Result<(), NoMemory>
    ensures { OnOk result (Adds out.old out.new
        (tokens_of (detailed_json name.now key.now text.now))) }
{
    begin_object(out)?;
    text_member(out, "error", name)?;
    text_member(out, key, text)?;
    end_object(out)
}

fn in_series(out: &mut Writer, name: &str, series: u64) -> Result<(), NoMemory>
    ensures { OnOk result (Adds out.old out.new (tokens_of (in_series_json name.now series))) }
{
    let mut buffer = Buffer::new();
    detailed(out, name, "series", buffer.format(series))
}

fn placed(out: &mut Writer, name: &str, series: u64, key: &str, n: u64) -> Result<(), NoMemory>
    ensures { OnOk result (Adds out.old out.new
        (tokens_of (placed_json name.now series key.now n))) }
{
    begin_object(out)?;
    text_member(out, "error", name)?;
    member(out, key, &n)?;
    member(out, "series", &series)?;
    end_object(out)
}

fn at_byte(out: &mut Writer, name: &str, series: u64, sample: u64, at: u64) -> Result<(), NoMemory>
    ensures { OnOk result (Adds out.old out.new
        (tokens_of (at_byte_json name.now series sample at))) }
{
    begin_object(out)?;
    member(out, "at", &at)?;
    text_member(out, "error", name)?;
    member(out, "sample", &sample)?;
    member(out, "series", &series)?;
    end_object(out)
}

fn name_of(parameter: Parameter) -> &'static str
    ensures { result.now ≡ parameter_name parameter }
{
    match parameter {
        Parameter::Start => "start",
        Parameter::End => "end",
    }
}

/// Writes the object of a refusal.
fn write_refusal(out: &mut Writer, name: &str, fields: Fields) -> Result<(), NoMemory>
    ensures { OnOk result (Adds out.old out.new (tokens_of (refusal_json name.now fields))) }
{
    match fields {
        Fields::None => bare(out, name),
        Fields::Series(series) => in_series(out, name, series),
        Fields::Label(series, label) => placed(out, name, series, "label", label),
        Fields::Sample(series, sample) => placed(out, name, series, "sample", sample),
        Fields::Byte(series, sample, at) => at_byte(out, name, series, sample, at),
        Fields::At(at) => numbered(out, "at", at, name),
        Fields::Drawn(drawn) => numbered(out, "drawn", drawn, name),
        Fields::Window(parameter) => detailed(out, name, "parameter", name_of(parameter)),
    }
}

impl WritesJson for Fault {
    ghost json = { fault_json };

    fn write(&self, out: &mut Writer) -> Result<(), NoMemory> {
        let (name, _, fields) = row(self);
        write_refusal(out, name, fields)
    }
}

/// The body of a refusal, a compact JSON text: its name and its fields, all as texts.
pub fn fault_text(alloc: Global, fault: &Fault) -> Result<Bytes, NoMemory>
    ensures { IfOk result (λ text. text ≡ compact_text (fault_json fault.now)) }
{
    text_of(alloc, fault)
}
