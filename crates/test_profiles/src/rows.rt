use fd_kinds::{Bytes, NoMemory, RawBody, Row, row_bytes};
use fd_pprof::ProfileFault;
use fd_rows::{BatchFault, LabelFault, batch};
use fixtures::{
    CPU, FUNCTIONS, LOCATIONS, MadeRow, TEXTS, TYPES, body_of, joined, made_rows, pairs, profile,
    series,
};
use std::alloc::Global;
use std::test::Fail;

/// The samples, and the same with the values 0.
const SAMPLES: &[u8] = &[0x12, 4, 8, 1, 0x10, 10, 0x12, 6, 8, 2, 8, 1, 0x10, 20];

const ZEROS: &[u8] = &[0x12, 4, 8, 1, 0x10, 0, 0x12, 6, 8, 2, 8, 1, 0x10, 0];

/// One second after 1970, and one nanosecond before.
const AFTER: &[u8] = &[0x48, 0x80, 0x94, 0xeb, 0xdc, 3];

const BEFORE: &[u8] = &[
    0x48, 0xff, 0xff, 0xff, 0xff, 0xff, 0xff, 0xff, 0xff, 0xff, 1,
];

const PERIOD: &[u8] = &[0x5a, 4, 8, 1, 0x10, 2, 0x60, 0x80, 0xad, 0xe2, 4];

type Given<'a> = &'a [(&'a str, &'a str)];

/// The body of one series with these labels, and a profile with these samples at a time.
fn one(alloc: Global, labels: Given, samples: &[u8], time: &[u8]) -> Result<RawBody, NoMemory> {
    let pieces = [TYPES, samples, LOCATIONS, FUNCTIONS, TEXTS, time, PERIOD];
    let profile = joined(alloc, &pieces)?;
    body_of(alloc, series(alloc, pairs(alloc, labels)?, profile)?)
}

/// Whether the rows have these sizes.
fn have_sizes(rows: &[Row], sizes: &[u64]) -> bool {
    for (row, size) in rows.iter().zip(sizes) {
        if row_bytes(row) != *size {
            return false;
        }
    }
    rows.len() == sizes.len()
}

/// Whether the body gives these rows with these sizes.
fn gives(
    alloc: Global,
    body: &RawBody,
    expected: &[MadeRow],
    sizes: &[u64],
) -> Result<bool, NoMemory> {
    let expected = made_rows(alloc, expected)?;
    Ok(match batch(alloc, body) {
        Ok(batch) => batch.rows == expected && have_sizes(batch.rows.as_slice(), sizes),
        Err(_) => false,
    })
}

const API: Given<'static> = &[("__name__", "process_cpu"), ("job", "api")];

#[test]
fn a_profile_gives_a_row_for_each_sample(rt: HostRuntime) -> Result<(), Fail> {
    let row = MadeRow {
        labels: &[("job", "api")],
        timestamp: 1000,
        ..CPU
    };
    let expected = [
        MadeRow {
            frames: &["main"],
            value: 10,
            ..row
        },
        MadeRow {
            frames: &["work", "main"],
            value: 20,
            ..row
        },
    ];
    let body = one(rt.alloc(), API, SAMPLES, AFTER)?;
    assert!(rt; gives(rt.alloc(), &body, &expected, &[125, 133])?);
    Ok(())
}

#[test]
fn values_of_zero_give_no_row(rt: HostRuntime) -> Result<(), Fail> {
    let body = one(rt.alloc(), API, ZEROS, AFTER)?;
    assert!(rt; gives(rt.alloc(), &body, &[], &[])?);
    Ok(())
}

#[test]
fn times_before_1970_are_rounded_down(rt: HostRuntime) -> Result<(), Fail> {
    let row = MadeRow {
        kind: ["c", "cpu", "nanoseconds", "cpu", "nanoseconds"],
        timestamp: -1,
        ..CPU
    };
    let expected = [
        MadeRow {
            frames: &["main"],
            value: 10,
            ..row
        },
        MadeRow {
            frames: &["work", "main"],
            value: 20,
            ..row
        },
    ];
    let body = one(rt.alloc(), &[("__name__", "c")], SAMPLES, BEFORE)?;
    assert!(rt; gives(rt.alloc(), &body, &expected, &[101, 109])?);
    Ok(())
}

/// The fault of a body of one series with these labels, none where it gives rows.
fn fault_of(alloc: Global, labels: Given) -> Result<Option<BatchFault>, NoMemory> {
    let body = one(alloc, labels, ZEROS, AFTER)?;
    Ok(batch(alloc, &body).err())
}

const fn label(label: u64, fault: LabelFault) -> BatchFault {
    BatchFault::Label {
        series: 0,
        label,
        fault,
    }
}

#[test]
fn labels_are_refused_by_name_and_place(rt: HostRuntime) -> Result<(), Fail> {
    let cases: [(Given, BatchFault); 3] = [
        (
            &[("__name__", "process_cpu"), ("a.b", "api")],
            label(1, LabelFault::BadLabelName),
        ),
        (
            &[("__name__", "process_cpu"), ("job", "api"), ("job", "api")],
            label(2, LabelFault::RepeatedLabel),
        ),
        (&[("job", "api")], BatchFault::NoName { series: 0 }),
    ];
    for (labels, fault) in cases {
        assert!(rt; fault_of(rt.alloc(), labels)? == Some(fault), "{fault:?}");
    }
    Ok(())
}

/// The fault where the label `job` has a value of so many bytes.
fn fault_of_long(alloc: Global, size: usize) -> Result<Option<BatchFault>, NoMemory> {
    let mut value = String::new(alloc);
    for _ in 0..size {
        value.push('a')?;
    }
    fault_of(
        alloc,
        &[("__name__", "process_cpu"), ("job", value.as_str())],
    )
}

#[test]
fn values_have_at_most_4096_bytes(rt: HostRuntime) -> Result<(), Fail> {
    let long = label(1, LabelFault::LongValue);
    assert!(rt; fault_of_long(rt.alloc(), 4_096)?.is_none());
    assert!(rt; fault_of_long(rt.alloc(), 4_097)? == Some(long));
    Ok(())
}

/// A body of two series, of which the second has another profile behind its first.
fn two_series(alloc: Global, profile: &[u8], other: &[u8]) -> Result<RawBody, NoMemory> {
    let first = Bytes::from_slice(alloc, profile)?;
    let mut body = body_of(
        alloc,
        series(alloc, pairs(alloc, &[("__name__", "a")])?, first)?,
    )?;
    let second = Bytes::from_slice(alloc, profile)?;
    let mut series = series(alloc, pairs(alloc, &[("__name__", "b")])?, second)?;
    series.profiles.push(Bytes::from_slice(alloc, other)?)?;
    body.series.push(series)?;
    Ok(body)
}

#[test]
fn a_profile_is_refused_at_its_place(rt: HostRuntime) -> Result<(), Fail> {
    let whole = profile(rt.alloc())?;
    let body = two_series(rt.alloc(), whole.as_slice(), &[0x1f, 0x8b])?;
    let fault = BatchFault::Profile {
        series: 1,
        sample: 1,
        fault: ProfileFault::Compressed,
    };
    assert!(rt; batch(rt.alloc(), &body).err() == Some(fault));
    Ok(())
}
