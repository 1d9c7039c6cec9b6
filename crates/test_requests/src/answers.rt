use fd_json::{Fault, Parameter, answer_text, dump_text, fault_text, number_text, stand_text};
use fd_kinds::{
    Answer, Items, NoMemory, Numbered, OneRange, Point, Points, SeriesName, Stack, StackSum, Stand,
    Text,
};
use fixtures::{CPU, MadeRow, kind, labels, made_row, texts};
use std::alloc::Global;
use std::test::Fail;

fn is_number_text(alloc: Global, number: u64, text: &str) -> Result<bool, NoMemory> {
    Ok(number_text(alloc, number)?.as_slice() == text.as_bytes())
}

fn is_stand_text(alloc: Global, stand: &Stand, text: &str) -> Result<bool, NoMemory> {
    Ok(stand_text(alloc, stand)?.as_slice() == text.as_bytes())
}

fn is_answer_text(
    alloc: Global,
    answer: &Answer,
    watermark: u64,
    text: &str,
) -> Result<bool, NoMemory> {
    Ok(answer_text(alloc, answer, watermark)?.as_slice() == text.as_bytes())
}

fn is_fault_text(alloc: Global, fault: &Fault, text: &str) -> Result<bool, NoMemory> {
    Ok(fault_text(alloc, fault)?.as_slice() == text.as_bytes())
}

#[test]
fn numbers_are_texts(rt: HostRuntime) -> Result<(), Fail> {
    let stand = Stand {
        drawn: 0,
        synced: 0,
        watermark: 0,
    };
    let text = "{\"drawn\":\"0\",\"synced\":\"0\",\"watermark\":\"0\"}";
    assert!(rt; is_number_text(rt.alloc(), 1, "{\"number\":\"1\"}")?);
    assert!(rt; is_stand_text(rt.alloc(), &stand, text)?);
    Ok(())
}

fn stack_sum(alloc: Global, frames: &[&str], value: i128) -> Result<StackSum, NoMemory> {
    Ok(StackSum {
        stack: Stack::of(texts(alloc, frames)?)?,
        value,
    })
}

fn main_and_work(alloc: Global) -> Result<Answer, NoMemory> {
    let mut stacks = Items::new(alloc);
    stacks.push(stack_sum(alloc, &["main"], 10)?)?;
    stacks.push(stack_sum(alloc, &["work", "main"], 20)?)?;
    Ok(Answer::Merge { stacks, total: 30 })
}

#[test]
fn a_merge_is_compact_json(rt: HostRuntime) -> Result<(), Fail> {
    let answer = main_and_work(rt.alloc())?;
    let text =
        "{\"stacks\":[{\"frames\":[\"main\"],\"value\":\"10\"},{\"frames\":[\"work\",\"main\"],\"value\":\"20\"}],\"total\":\"30\",\"watermark\":\"1\"}";
    assert!(rt; is_answer_text(rt.alloc(), &answer, 1, text)?);
    Ok(())
}

#[test]
fn answers_of_nothing_are_compact_json(rt: HostRuntime) -> Result<(), Fail> {
    let alloc = rt.alloc();
    let merge = Answer::Merge {
        stacks: Items::new(alloc),
        total: 0,
    };
    let stacks = "{\"stacks\":[],\"total\":\"0\",\"watermark\":\"0\"}";
    let types = Answer::Types(Items::new(alloc));
    assert!(rt; is_answer_text(alloc, &merge, 0, stacks)?);
    assert!(rt; is_answer_text(alloc, &types, 0, "{\"types\":[],\"watermark\":\"0\"}")?);
    Ok(())
}

fn names_of(alloc: Global, names: &[&str]) -> Result<Answer, NoMemory> {
    Ok(Answer::Names(texts(alloc, names)?))
}

fn values_of(alloc: Global, values: &[&str]) -> Result<Answer, NoMemory> {
    Ok(Answer::Values(texts(alloc, values)?))
}

#[test]
fn names_are_compact_json(rt: HostRuntime) -> Result<(), Fail> {
    let names = names_of(rt.alloc(), &["env", "job"])?;
    let text = "{\"labelNames\":[\"env\",\"job\"],\"watermark\":\"2\"}";
    assert!(rt; is_answer_text(rt.alloc(), &names, 2, text)?);
    Ok(())
}

#[test]
fn values_are_compact_json(rt: HostRuntime) -> Result<(), Fail> {
    let values = values_of(rt.alloc(), &["dev"])?;
    let text = "{\"labelValues\":[\"dev\"],\"watermark\":\"2\"}";
    assert!(rt; is_answer_text(rt.alloc(), &values, 2, text)?);
    Ok(())
}

fn series_name(alloc: Global, of: &[(&str, &str)]) -> Result<SeriesName, NoMemory> {
    Ok(SeriesName {
        name: Text::of(alloc, "process_cpu")?,
        labels: labels(alloc, of)?,
    })
}

fn two_series(alloc: Global) -> Result<Answer, NoMemory> {
    let mut series = Items::new(alloc);
    series.push(series_name(alloc, &[("job", "api")])?)?;
    series.push(series_name(alloc, &[("job", "api"), ("env", "dev")])?)?;
    Ok(Answer::Series(series))
}

#[test]
fn series_are_compact_json(rt: HostRuntime) -> Result<(), Fail> {
    let answer = two_series(rt.alloc())?;
    let text =
        "{\"series\":[{\"labels\":[{\"name\":\"job\",\"value\":\"api\"}],\"name\":\"process_cpu\"},{\"labels\":[{\"name\":\"env\",\"value\":\"dev\"},{\"name\":\"job\",\"value\":\"api\"}],\"name\":\"process_cpu\"}],\"watermark\":\"2\"}";
    assert!(rt; is_answer_text(rt.alloc(), &answer, 2, text)?);
    Ok(())
}

fn one_point(alloc: Global) -> Result<Points, NoMemory> {
    let mut points = Items::new(alloc);
    points.push(Point {
        timestamp: 1000,
        value: 30,
    })?;
    Ok(points)
}

fn one_range(alloc: Global) -> Result<OneRange, NoMemory> {
    Ok(OneRange {
        labels: labels(alloc, &[("job", "api")])?,
        points: one_point(alloc)?,
    })
}

fn job_range(alloc: Global) -> Result<Answer, NoMemory> {
    let mut ranges = Items::new(alloc);
    ranges.push(one_range(alloc)?)?;
    Ok(Answer::Range(ranges))
}

#[test]
fn ranges_are_compact_json(rt: HostRuntime) -> Result<(), Fail> {
    let answer = job_range(rt.alloc())?;
    let text =
        "{\"series\":[{\"labelset\":{\"labels\":[{\"name\":\"job\",\"value\":\"api\"}]},\"samples\":[{\"timestamp\":\"1000\",\"value\":\"30\"}]}],\"watermark\":\"1\"}";
    assert!(rt; is_answer_text(rt.alloc(), &answer, 1, text)?);
    Ok(())
}

fn quoted_type(alloc: Global) -> Result<Answer, NoMemory> {
    let mut types = Items::new(alloc);
    let texts = ["process_cpu", "cpu", "nanoseconds", "p\"t", "count\n"];
    types.push(kind(alloc, &texts, true)?)?;
    Ok(Answer::Types(types))
}

#[test]
fn types_are_compact_json(rt: HostRuntime) -> Result<(), Fail> {
    let answer = quoted_type(rt.alloc())?;
    let text =
        "{\"types\":[{\"delta\":true,\"name\":\"process_cpu\",\"periodType\":\"p\\\"t\",\"periodUnit\":\"count\\n\",\"sampleType\":\"cpu\",\"sampleUnit\":\"nanoseconds\"}],\"watermark\":\"7\"}";
    assert!(rt; is_answer_text(rt.alloc(), &answer, 7, text)?);
    Ok(())
}

const START: Parameter = Parameter::Start;

const FAULTS: [(Fault, &str); 9] = [
    (
        Fault::Compressed {
            series: 0,
            sample: 0,
        },
        "{\"error\":\"Compressed\",\"sample\":\"0\",\"series\":\"0\"}",
    ),
    (
        Fault::NotDrawn { drawn: 4 },
        "{\"drawn\":\"4\",\"error\":\"NotDrawn\"}",
    ),
    (
        Fault::BadLabelName {
            series: 0,
            label: 1,
        },
        "{\"error\":\"BadLabelName\",\"label\":\"1\",\"series\":\"0\"}",
    ),
    (
        Fault::NoName { series: 0 },
        "{\"error\":\"NoName\",\"series\":\"0\"}",
    ),
    (Fault::DiskFault, "{\"error\":\"DiskFault\"}"),
    (Fault::BadType, "{\"error\":\"BadType\"}"),
    (
        Fault::BadMatcher { at: 48 },
        "{\"at\":\"48\",\"error\":\"BadMatcher\"}",
    ),
    (
        Fault::BadTime { parameter: START },
        "{\"error\":\"BadTime\",\"parameter\":\"start\"}",
    ),
    (
        Fault::Wire {
            series: 0,
            sample: 0,
            at: 93,
        },
        "{\"at\":\"93\",\"error\":\"Wire\",\"sample\":\"0\",\"series\":\"0\"}",
    ),
];

#[test]
fn refusals_name_the_error_and_its_fields(rt: HostRuntime) -> Result<(), Fail> {
    for (fault, text) in FAULTS {
        assert!(rt; is_fault_text(rt.alloc(), &fault, text)?, "{text}");
    }
    Ok(())
}

/// Whether this is the line of a dump for the row in the batch of this number.
fn is_dump_text(
    alloc: Global,
    number: u64,
    made: &MadeRow<'_>,
    text: &str,
) -> Result<bool, NoMemory> {
    let row = made_row(alloc, made)?;
    Ok(dump_text(alloc, &Numbered { number, row })?.as_slice() == text.as_bytes())
}

#[test]
fn a_row_is_a_line_of_a_dump(rt: HostRuntime) -> Result<(), Fail> {
    let made = MadeRow {
        labels: &[("job", "api")],
        timestamp: 1_000,
        frames: &["main"],
        value: 10,
        ..CPU
    };
    let text =
        "{\"_tx\":\"1\",\"duration\":\"0\",\"labels\":[{\"name\":\"job\",\"value\":\"api\"}],\"name\":\"process_cpu\",\"period\":\"10000000\",\"period_type\":\"cpu\",\"period_unit\":\"nanoseconds\",\"pprof_labels\":[],\"sample_type\":\"cpu\",\"sample_unit\":\"nanoseconds\",\"stack\":[\"main\"],\"timestamp\":\"1000\",\"value\":\"10\"}";
    assert!(rt; is_dump_text(rt.alloc(), 1, &made, text)?);
    Ok(())
}

#[test]
fn a_dump_has_the_sample_labels_and_signs(rt: HostRuntime) -> Result<(), Fail> {
    let made = MadeRow {
        timestamp: -1,
        frames: &["work", "main"],
        pprof_labels: &[("b", "2"), ("a", "1")],
        period: 0,
        duration: 30,
        value: -9_223_372_036_854_775_808,
        ..CPU
    };
    let text =
        "{\"_tx\":\"18446744073709551615\",\"duration\":\"30\",\"labels\":[],\"name\":\"process_cpu\",\"period\":\"0\",\"period_type\":\"cpu\",\"period_unit\":\"nanoseconds\",\"pprof_labels\":[{\"name\":\"a\",\"value\":\"1\"},{\"name\":\"b\",\"value\":\"2\"}],\"sample_type\":\"cpu\",\"sample_unit\":\"nanoseconds\",\"stack\":[\"work\",\"main\"],\"timestamp\":\"-1\",\"value\":\"-9223372036854775808\"}";
    assert!(rt; is_dump_text(rt.alloc(), 18_446_744_073_709_551_615, &made, text)?);
    Ok(())
}
