use fd_kinds::{
    Answer, Items, MatchOp, Matcher, NoMemory, OneRange, Point, ProfileType, Query, Selector,
    SeriesName, StackSum, Text, Window,
};
use fd_part::Part;
use fd_scan::{Gathered, scan};
use fixtures::{CPU, MadeRow, are_pairs, are_texts, kind, made_batch};
use std::alloc::Global;
use std::test::Fail;

const MAIN: MadeRow<'static> = MadeRow {
    frames: &["main"],
    ..CPU
};

const WORK: MadeRow<'static> = MadeRow {
    frames: &["work", "main"],
    ..CPU
};

const EU: &[(&str, &str)] = &[("region", "eu")];

const FIRST: [MadeRow<'static>; 3] = [
    MadeRow {
        labels: EU,
        timestamp: 1000,
        value: 5,
        ..MAIN
    },
    MadeRow {
        labels: &[("zone", "a"), ("region", "eu")],
        timestamp: 1200,
        value: 7,
        ..WORK
    },
    MadeRow {
        timestamp: 2000,
        duration: 5,
        value: 100,
        ..MAIN
    },
];

const SECOND: [MadeRow<'static>; 5] = [
    MadeRow {
        labels: EU,
        timestamp: 1000,
        value: -5,
        ..WORK
    },
    MadeRow {
        labels: &[("region", "us")],
        timestamp: 1500,
        value: -2,
        ..WORK
    },
    MadeRow {
        labels: EU,
        timestamp: 1600,
        value: 3,
        ..MAIN
    },
    MadeRow {
        labels: &[("zone", "b")],
        timestamp: 999,
        value: 1000,
        ..MAIN
    },
    MadeRow {
        labels: &[("zone", "b")],
        timestamp: 2001,
        value: 1000,
        ..MAIN
    },
];

/// Two rows with one stack and one time, whose sum needs more than 64 bits.
const LARGE: [MadeRow<'static>; 2] = [
    MadeRow {
        timestamp: 1000,
        value: i64::MAX,
        ..MAIN
    },
    MadeRow {
        timestamp: 1000,
        value: i64::MAX,
        ..MAIN
    },
];

const WINDOW: Window = Window {
    start: 1000,
    end: 2000,
};

/// A label, and the value that the rows do not have which are asked for.
type Other<'a> = (&'a str, &'a str);

/// The labels of a series.
type Series<'a> = &'a [(&'a str, &'a str)];

/// The labels of a range, and its sums.
type Range<'a> = (Series<'a>, &'a [(i64, i128)]);

/// The frames of a stack, and its sum.
type Sum<'a> = (&'a [&'a str], i128);

/// What is asked of the rows within the window.
#[derive(Clone, Copy)]
enum Asked<'a> {
    Types,
    LabelNames(Option<Other<'a>>),
    Values(&'a str, Other<'a>),
    Series,
    Range(Other<'a>),
    Merge(Other<'a>),
}

/// What is to be answered.
#[derive(Clone, Copy)]
enum Expected<'a> {
    /// Whether each of the types stands for a stretch of time.
    Types(&'a [bool]),
    Texts(&'a [&'a str]),
    Series(&'a [Series<'a>]),
    Range(&'a [Range<'a>]),
    Merge(&'a [Sum<'a>], i128),
}

/// Two parts of rows, what is asked of both, and the answer.
#[derive(Clone, Copy)]
struct Case<'a> {
    first: &'a [MadeRow<'a>],
    second: &'a [MadeRow<'a>],
    asked: Asked<'a>,
    expected: Expected<'a>,
}

/// A matcher of another value than this.
fn other(alloc: Global, of: Other<'_>) -> Result<Matcher, NoMemory> {
    let name = Text::of(alloc, of.0)?;
    let value = Text::of(alloc, of.1)?;
    Ok(Matcher {
        name,
        op: MatchOp::NotEqual,
        value,
    })
}

/// The rows without a duration whose label has another value.
fn without(alloc: Global, of: Other<'_>) -> Result<Selector, NoMemory> {
    let kind = kind(alloc, &CPU.kind, false)?;
    let mut matchers = Items::new(alloc);
    matchers.push(other(alloc, of)?)?;
    Ok(Selector { kind, matchers })
}

/// The filter, where there is one.
fn filter(alloc: Global, of: Option<Other<'_>>) -> Result<Option<Selector>, NoMemory> {
    match of {
        Some(of) => Ok(Some(without(alloc, of)?)),
        None => Ok(None),
    }
}

fn query_of(alloc: Global, asked: &Asked<'_>) -> Result<Query, NoMemory> {
    let window = WINDOW;
    Ok(match asked {
        Asked::Types => Query::Types { window },
        Asked::LabelNames(of) => Query::LabelNames {
            filter: filter(alloc, *of)?,
            window,
        },
        Asked::Values(name, of) => Query::Values {
            name: Text::of(alloc, name)?,
            filter: filter(alloc, Some(*of))?,
            window,
        },
        Asked::Series => Query::Series {
            filter: None,
            window,
        },
        Asked::Range(of) => Query::Range {
            selector: without(alloc, *of)?,
            window,
        },
        Asked::Merge(of) => Query::Merge {
            selector: without(alloc, *of)?,
            window,
        },
    })
}

/// Scans the columns of the rows.
fn scan_rows(
    alloc: Global,
    query: &Query,
    made: &[MadeRow<'_>],
    gathered: &mut Gathered,
) -> Result<(), NoMemory> {
    let part = Part::fresh(made_batch(alloc, made)?)?;
    scan(query, part.cells(), gathered)
}

/// The answer over the rows of both parts. What was gathered is let go by `finish` alone, since a
/// crate that drops it proves anew how its maps and sets are dropped.
fn answer_of(alloc: Global, case: &Case<'_>) -> Result<Answer, NoMemory> {
    let query = query_of(alloc, &case.asked)?;
    let mut gathered = Gathered::new(alloc, &query)?;
    let first = scan_rows(alloc, &query, case.first, &mut gathered);
    let second = scan_rows(alloc, &query, case.second, &mut gathered);
    let answer = gathered.finish()?;
    first?;
    second?;
    Ok(answer)
}

fn is_kind(kind: &ProfileType, delta: bool) -> bool {
    kind.name.as_str() == "process_cpu"
        && kind.sample_type.as_str() == "cpu"
        && kind.sample_unit.as_str() == "nanoseconds"
        && kind.period_type.as_str() == "cpu"
        && kind.period_unit.as_str() == "nanoseconds"
        && kind.delta == delta
}

fn are_kinds(found: &[ProfileType], expected: &[bool]) -> bool {
    for (kind, delta) in found.iter().zip(expected) {
        if !is_kind(kind, *delta) {
            return false;
        }
    }
    found.len() == expected.len()
}

fn is_series(series: &SeriesName, labels: Series<'_>) -> bool {
    series.name.as_str() == "process_cpu" && are_pairs(series.labels.pairs.as_slice(), labels)
}

fn are_series(found: &[SeriesName], expected: &[Series<'_>]) -> bool {
    for (series, labels) in found.iter().zip(expected) {
        if !is_series(series, labels) {
            return false;
        }
    }
    found.len() == expected.len()
}

fn are_points(found: &[Point], expected: &[(i64, i128)]) -> bool {
    for (point, wanted) in found.iter().zip(expected) {
        if point.timestamp != wanted.0 || point.value != wanted.1 {
            return false;
        }
    }
    found.len() == expected.len()
}

fn is_range(range: &OneRange, wanted: &Range<'_>) -> bool {
    are_pairs(range.labels.pairs.as_slice(), wanted.0)
        && are_points(range.points.as_slice(), wanted.1)
}

fn are_ranges(found: &[OneRange], expected: &[Range<'_>]) -> bool {
    for (range, wanted) in found.iter().zip(expected) {
        if !is_range(range, wanted) {
            return false;
        }
    }
    found.len() == expected.len()
}

fn is_sum(sum: &StackSum, wanted: &Sum<'_>) -> bool {
    are_texts(sum.stack.as_slice(), wanted.0) && sum.value == wanted.1
}

fn are_sums(found: &[StackSum], expected: &[Sum<'_>]) -> bool {
    for (sum, wanted) in found.iter().zip(expected) {
        if !is_sum(sum, wanted) {
            return false;
        }
    }
    found.len() == expected.len()
}

fn is_answer(answer: &Answer, expected: &Expected<'_>) -> bool {
    match (answer, expected) {
        (Answer::Types(types), Expected::Types(of)) => are_kinds(types.as_slice(), of),
        (Answer::Names(names), Expected::Texts(of)) => are_texts(names.as_slice(), of),
        (Answer::Values(values), Expected::Texts(of)) => are_texts(values.as_slice(), of),
        (Answer::Series(series), Expected::Series(of)) => are_series(series.as_slice(), of),
        (Answer::Range(ranges), Expected::Range(of)) => are_ranges(ranges.as_slice(), of),
        (Answer::Merge { stacks, total }, Expected::Merge(of, sum)) => {
            are_sums(stacks.as_slice(), of) && total == sum
        }
        _ => false,
    }
}

/// Whether the rows of both parts have the answer.
fn holds(alloc: Global, case: &Case<'_>) -> Result<bool, NoMemory> {
    Ok(is_answer(&answer_of(alloc, case)?, &case.expected))
}

/// Whether the rows of the first and the second part have the answer.
fn answers(alloc: Global, asked: Asked<'_>, expected: Expected<'_>) -> Result<bool, NoMemory> {
    let case = Case {
        first: &FIRST,
        second: &SECOND,
        asked,
        expected,
    };
    holds(alloc, &case)
}

#[test]
fn types_are_those_within_the_window_without_delta_first(rt: HostRuntime) -> Result<(), Fail> {
    let asked = Asked::Types;
    let expected = Expected::Types(&[false, true]);
    assert!(rt; answers(rt.alloc(), asked, expected)?);
    Ok(())
}

#[test]
fn label_names_are_of_all_rows_within_the_window(rt: HostRuntime) -> Result<(), Fail> {
    let asked = Asked::LabelNames(None);
    let expected = Expected::Texts(&["region", "zone"]);
    assert!(rt; answers(rt.alloc(), asked, expected)?);
    Ok(())
}

#[test]
fn label_names_are_of_the_rows_that_a_filter_keeps(rt: HostRuntime) -> Result<(), Fail> {
    let asked = Asked::LabelNames(Some(("region", "eu")));
    let expected = Expected::Texts(&["region"]);
    assert!(rt; answers(rt.alloc(), asked, expected)?);
    Ok(())
}

#[test]
fn values_are_of_one_label_also_of_rows_without_the_filtered_one(
    rt: HostRuntime,
) -> Result<(), Fail> {
    let asked = Asked::Values("region", ("zone", "a"));
    let expected = Expected::Texts(&["eu", "us"]);
    assert!(rt; answers(rt.alloc(), asked, expected)?);
    Ok(())
}

const SERIES: [Series<'static>; 4] = [
    &[],
    EU,
    &[("region", "eu"), ("zone", "a")],
    &[("region", "us")],
];

#[test]
fn series_are_in_the_order_of_their_labels(rt: HostRuntime) -> Result<(), Fail> {
    let asked = Asked::Series;
    let expected = Expected::Series(&SERIES);
    assert!(rt; answers(rt.alloc(), asked, expected)?);
    Ok(())
}

const RANGES: [Range<'static>; 3] = [
    (EU, &[(1000, 0), (1600, 3)]),
    (&[("region", "eu"), ("zone", "a")], &[(1200, 7)]),
    (&[("region", "us")], &[(1500, -2)]),
];

#[test]
fn a_range_has_the_sum_at_each_time_also_where_it_is_zero(rt: HostRuntime) -> Result<(), Fail> {
    let asked = Asked::Range(("region", ""));
    let expected = Expected::Range(&RANGES);
    assert!(rt; answers(rt.alloc(), asked, expected)?);
    Ok(())
}

const SUMS: [Sum<'static>; 2] = [(&["main"], 8), (&["work", "main"], 0)];

#[test]
fn a_merge_has_the_sum_of_each_stack_also_where_it_is_zero(rt: HostRuntime) -> Result<(), Fail> {
    let asked = Asked::Merge(("region", ""));
    let expected = Expected::Merge(&SUMS, 8);
    assert!(rt; answers(rt.alloc(), asked, expected)?);
    Ok(())
}

/// Four times 2^63 - 1.
const LARGE_SUM: i128 = 36_893_488_147_419_103_228;

/// Whether the large rows, twice, have the answer.
fn answers_large(
    alloc: Global,
    asked: Asked<'_>,
    expected: Expected<'_>,
) -> Result<bool, NoMemory> {
    let case = Case {
        first: &LARGE,
        second: &LARGE,
        asked,
        expected,
    };
    holds(alloc, &case)
}

#[test]
fn a_merge_has_sums_of_more_than_64_bits(rt: HostRuntime) -> Result<(), Fail> {
    let asked = Asked::Merge(("region", "eu"));
    let expected = Expected::Merge(&[(&["main"], LARGE_SUM)], LARGE_SUM);
    assert!(rt; answers_large(rt.alloc(), asked, expected)?);
    Ok(())
}

#[test]
fn a_range_has_sums_of_more_than_64_bits(rt: HostRuntime) -> Result<(), Fail> {
    let asked = Asked::Range(("region", "eu"));
    let expected = Expected::Range(&[(&[], &[(1000, LARGE_SUM)])]);
    assert!(rt; answers_large(rt.alloc(), asked, expected)?);
    Ok(())
}
