ghost use Rattle.std.specs.Prelude.{◌≡◌, OnOk};
ghost use Rattle.fd_json.specs.Answers.{type_json, series_json, point_json, range_json, stack_json, stand_json, sums_json, answer_json};
ghost use Rattle.fd_json.specs.Tokens.{Adds, tokens_of};

use crate::writer::{WritesJson, begin_object, end_object, member, one_member, two_members};
use fd_kinds::{
    Answer, NoMemory, OneRange, Point, ProfileType, SeriesName, StackSum, StackSums, Stand,
};
use json::Writer;

impl WritesJson for ProfileType {
    ghost json = { type_json };

    fn write(&self, out: &mut Writer) -> Result<(), NoMemory> {
        begin_object(out)?;
        member(out, "delta", &self.delta)?;
        member(out, "name", &self.name)?;
        member(out, "periodType", &self.period_type)?;
        member(out, "periodUnit", &self.period_unit)?;
        member(out, "sampleType", &self.sample_type)?;
        member(out, "sampleUnit", &self.sample_unit)?;
        end_object(out)
    }
}

impl WritesJson for SeriesName {
    ghost json = { series_json };

    fn write(&self, out: &mut Writer) -> Result<(), NoMemory> {
        two_members(out, "labels", &self.labels.pairs, "name", &self.name)
    }
}

impl WritesJson for Point {
    ghost json = { point_json };

    fn write(&self, out: &mut Writer) -> Result<(), NoMemory> {
        two_members(out, "timestamp", &self.timestamp, "value", &self.value)
    }
}

impl WritesJson for OneRange {
    ghost json = { range_json };

    fn write(&self, out: &mut Writer) -> Result<(), NoMemory> {
        two_members(out, "labelset", &self.labels, "samples", &self.points)
    }
}

impl WritesJson for StackSum {
    ghost json = { stack_json };

    fn write(&self, out: &mut Writer) -> Result<(), NoMemory> {
        two_members(out, "frames", &self.stack, "value", &self.value)
    }
}

/// The number that the batch of a write was given.
#[derive(Drop)]
pub(crate) struct Drawn {
    pub number: u64,
}

impl WritesJson for Drawn {
    ghost use Rattle.fd_json.specs.Answers.{drawn_json};

    ghost json = { λ d. drawn_json d.number };

    fn write(&self, out: &mut Writer) -> Result<(), NoMemory> {
        one_member(out, "number", &self.number)
    }
}

impl WritesJson for Stand {
    ghost json = { stand_json };

    fn write(&self, out: &mut Writer) -> Result<(), NoMemory> {
        begin_object(out)?;
        member(out, "drawn", &self.drawn)?;
        member(out, "synced", &self.synced)?;
        member(out, "watermark", &self.watermark)?;
        end_object(out)
    }
}

fn write_sums(
    out: &mut Writer,
    stacks: &StackSums,
    total: &i128,
    watermark: u64,
) -> Result<(), NoMemory>
    ensures { OnOk result (Adds out.old out.new
        (tokens_of (sums_json stacks.now total.now watermark))) }
{
    begin_object(out)?;
    member(out, "stacks", stacks)?;
    member(out, "total", total)?;
    member(out, "watermark", &watermark)?;
    end_object(out)
}

/// Writes an answer and the watermark up to which it saw the history.
pub(crate) fn write_answer(
    out: &mut Writer,
    answer: &Answer,
    watermark: u64,
) -> Result<(), NoMemory>
    ensures { OnOk result (Adds out.old out.new (tokens_of (answer_json answer.now watermark))) }
{
    let mark = "watermark";
    match answer {
        Answer::Types(types) => two_members(out, "types", types, mark, &watermark),
        Answer::Names(names) => two_members(out, "labelNames", names, mark, &watermark),
        Answer::Values(values) => two_members(out, "labelValues", values, mark, &watermark),
        Answer::Series(series) => two_members(out, "series", series, mark, &watermark),
        Answer::Range(ranges) => two_members(out, "series", ranges, mark, &watermark),
        Answer::Merge { stacks, total } => write_sums(out, stacks, total, watermark),
    }
}
