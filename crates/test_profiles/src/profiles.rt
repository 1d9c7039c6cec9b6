use fd_kinds::NoMemory;
use fd_pprof::{Profile, ProfileFault, Sample, ValueType, read_profile};
use fixtures::{
    FIRST, FUNCTIONS, LOCATIONS, LONG_FUNCTIONS, REST, SECOND, TEXTS, TYPES, are_pairs, are_texts,
    joined, profile_with_text,
};
use std::alloc::Global;
use std::test::Fail;

/// The frames of a sample, its value and its labels.
#[derive(Clone, Copy)]
struct Expected<'a> {
    frames: &'a [&'a str],
    value: i64,
    labels: &'a [(&'a str, &'a str)],
}

const MAIN: Expected<'static> = Expected {
    frames: &["main"],
    value: 10,
    labels: &[],
};

const WORK: Expected<'static> = Expected {
    frames: &["work", "main"],
    value: 20,
    labels: &[],
};

const BOTH: &[Expected<'static>] = &[MAIN, WORK];

fn is_cpu(kind: &ValueType) -> bool {
    kind.kind.as_str() == "cpu" && kind.unit.as_str() == "nanoseconds"
}

fn is_sample(sample: &Sample, expected: &Expected<'_>) -> bool {
    are_texts(sample.stack.as_slice(), expected.frames)
        && sample.values.as_slice() == [expected.value].as_slice()
        && are_pairs(sample.labels.pairs.as_slice(), expected.labels)
}

fn are_samples(samples: &[Sample], expected: &[Expected<'_>]) -> bool {
    for (sample, wanted) in samples.iter().zip(expected) {
        if !is_sample(sample, wanted) {
            return false;
        }
    }
    samples.len() == expected.len()
}

/// Whether the times, the types and the period are those of the pieces.
fn has_rest(profile: &Profile) -> bool {
    let numbers = (profile.period, profile.time_nanos, profile.duration_nanos);
    profile
        .sample_types
        .as_slice()
        .iter()
        .all(|kind| is_cpu(kind))
        && is_cpu(&profile.period_type)
        && numbers == (10_000_000, 1_000_000_000, 0)
}

/// Whether the bytes are read as these samples, with the pieces' types and numbers.
fn is_read(alloc: Global, bytes: &[u8], expected: &[Expected<'_>]) -> bool {
    match read_profile(alloc, bytes) {
        Ok(profile) => has_rest(&profile) && are_samples(profile.samples.as_slice(), expected),
        Err(_) => false,
    }
}

fn are_read(alloc: Global, pieces: &[&[u8]], expected: &[Expected<'_>]) -> Result<bool, NoMemory> {
    let all = joined(alloc, pieces)?;
    Ok(is_read(alloc, all.as_slice(), expected))
}

fn are_refused(alloc: Global, pieces: &[&[u8]], fault: ProfileFault) -> Result<bool, NoMemory> {
    let all = joined(alloc, pieces)?;
    Ok(read_profile(alloc, all.as_slice()).err() == Some(fault))
}

/// Whether the profile with other samples is read as these.
fn sampled(
    alloc: Global,
    first: &[u8],
    second: &[u8],
    expected: &[Expected<'_>],
) -> Result<bool, NoMemory> {
    let pieces = [TYPES, first, second, LOCATIONS, FUNCTIONS, TEXTS, REST];
    are_read(alloc, &pieces, expected)
}

/// Whether the profile with another first sample is refused by the fault.
fn first_refused(alloc: Global, first: &[u8], fault: ProfileFault) -> Result<bool, NoMemory> {
    let pieces = [TYPES, first, SECOND, LOCATIONS, FUNCTIONS, TEXTS, REST];
    are_refused(alloc, &pieces, fault)
}

#[test]
fn repeated_numbers_are_packed_or_not(rt: HostRuntime) -> Result<(), Fail> {
    let packed = [0x12, 7, 0x0a, 2, 2, 1, 0x12, 1, 20];
    assert!(rt; sampled(rt.alloc(), FIRST, SECOND, BOTH)?);
    assert!(rt; sampled(rt.alloc(), FIRST, &packed, BOTH)?);
    Ok(())
}

#[test]
fn samples_are_refused(rt: HostRuntime) -> Result<(), Fail> {
    let cases: [(&[u8], ProfileFault); 3] = [
        (
            &[0x12, 6, 8, 1, 0x10, 10, 0x10, 11],
            ProfileFault::ValueCount,
        ),
        (&[0x12, 4, 8, 3, 0x10, 10], ProfileFault::UnknownLocation),
        // An unknown location, and behind it two values.
        (
            &[0x12, 4, 8, 3, 0x10, 10, 0x12, 6, 8, 1, 0x10, 10, 0x10, 11],
            ProfileFault::ValueCount,
        ),
    ];
    for (first, fault) in cases {
        assert!(rt; first_refused(rt.alloc(), first, fault)?, "{fault:?}");
    }
    Ok(())
}

/// An unknown field, a period type in two halves, and two periods.
const HALVES: &[u8] = &[
    0x98, 6, 1, 0x48, 0x80, 0x94, 0xeb, 0xdc, 3, 0x5a, 2, 0x10, 2, 0x5a, 2, 8, 1, 0x60, 1, 0x60,
    0x80, 0xad, 0xe2, 4,
];

#[test]
fn singular_fields_are_merged(rt: HostRuntime) -> Result<(), Fail> {
    let pieces = [TYPES, FIRST, SECOND, LOCATIONS, FUNCTIONS, TEXTS, HALVES];
    assert!(rt; are_read(rt.alloc(), &pieces, BOTH)?);
    Ok(())
}

#[test]
fn a_profile_that_is_cut_is_refused_at_its_place(rt: HostRuntime) -> Result<(), Fail> {
    let pieces = [
        TYPES,
        FIRST,
        SECOND,
        LOCATIONS,
        FUNCTIONS,
        TEXTS,
        &REST[..16],
    ];
    assert!(rt; are_refused(rt.alloc(), &pieces, ProfileFault::Wire { at: 93 })?);
    Ok(())
}

/// Location 1 has the address 0xabc and no line, location 2 the lines `work` and no function.
const ADDRESSES: &[u8] = &[
    0x22, 5, 8, 1, 0x18, 0xbc, 0x15, 0x22, 13, 8, 2, 0x18, 0xff, 1, 0x22, 2, 8, 2, 0x22, 2, 0x10, 7,
];

#[test]
fn frames_without_functions_show_their_address(rt: HostRuntime) -> Result<(), Fail> {
    let expected = [
        Expected {
            frames: &["0x0000000000000abc"],
            value: 10,
            labels: &[],
        },
        Expected {
            frames: &["work", "0x00000000000000ff", "0x0000000000000abc"],
            value: 20,
            labels: &[],
        },
    ];
    let pieces = [TYPES, FIRST, SECOND, ADDRESSES, FUNCTIONS, TEXTS, REST];
    assert!(rt; are_read(rt.alloc(), &pieces, &expected)?);
    Ok(())
}

/// The first sample with the labels work=main, work=cpu, cpu without a text, and main=cpu.
const LABELED: &[u8] = &[
    0x12, 26, 8, 1, 0x10, 10, 0x1a, 4, 8, 4, 0x10, 3, 0x1a, 4, 8, 4, 0x10, 1, 0x1a, 2, 8, 1, 0x1a,
    4, 8, 3, 0x10, 1,
];

#[test]
fn the_last_label_of_a_key_wins(rt: HostRuntime) -> Result<(), Fail> {
    let first = Expected {
        frames: &["main"],
        value: 10,
        labels: &[("main", "cpu"), ("work", "cpu")],
    };
    assert!(rt; sampled(rt.alloc(), LABELED, SECOND, &[first, WORK])?);
    Ok(())
}

/// Fields behind the profile, by which it is refused.
const BEHIND: [(&[u8], ProfileFault); 5] = [
    (&[0x22, 4, 8, 3, 0x10, 9], ProfileFault::UnknownMapping),
    (
        &[0x22, 6, 8, 3, 0x22, 2, 8, 9],
        ProfileFault::UnknownFunction,
    ),
    (&[0x2a, 2, 8, 2], ProfileFault::RepeatedId),
    (&[0x32, 1, 0xff], ProfileFault::NotUtf8),
    (&[0x2a, 4, 8, 3, 0x10, 5], ProfileFault::StringIndex),
];

/// Whether the profile with more fields behind it is refused by the fault.
fn more_refused(alloc: Global, more: &[u8], fault: ProfileFault) -> Result<bool, NoMemory> {
    let pieces = [
        TYPES, FIRST, SECOND, LOCATIONS, FUNCTIONS, TEXTS, REST, more,
    ];
    are_refused(alloc, &pieces, fault)
}

#[test]
fn later_fields_are_refused(rt: HostRuntime) -> Result<(), Fail> {
    for (more, fault) in BEHIND {
        assert!(rt; more_refused(rt.alloc(), more, fault)?, "{fault:?}");
    }
    Ok(())
}

#[test]
fn packed_and_empty_bytes_are_refused(rt: HostRuntime) -> Result<(), Fail> {
    assert!(rt; are_refused(rt.alloc(), &[&[0x1f, 0x8b]], ProfileFault::Compressed)?);
    assert!(rt; are_refused(rt.alloc(), &[], ProfileFault::StringZero)?);
    Ok(())
}

/// The fault of the profile with these functions and a text of so many bytes.
fn fault_of(alloc: Global, functions: &[u8], size: u32) -> Result<Option<ProfileFault>, NoMemory> {
    let all = profile_with_text(alloc, functions, size)?;
    Ok(read_profile(alloc, all.as_slice()).err())
}

#[test]
fn texts_and_stacks_have_limits(rt: HostRuntime) -> Result<(), Fail> {
    let cases: [(&[u8], u32, Option<ProfileFault>); 4] = [
        (FUNCTIONS, 1_048_576, None),
        (FUNCTIONS, 1_048_577, Some(ProfileFault::LongText)),
        (LONG_FUNCTIONS, 1_048_568, None),
        (LONG_FUNCTIONS, 1_048_569, Some(ProfileFault::TooDeep)),
    ];
    for (functions, size, fault) in cases {
        assert!(rt; fault_of(rt.alloc(), functions, size)? == fault, "{size}");
    }
    Ok(())
}
