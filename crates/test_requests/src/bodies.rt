use fd_json::{BodyFault, read_body};
use fd_kinds::{Bytes, NoMemory, RawBody, RawSeries};
use fixtures::{BODY, are_pairs, profile};
use std::alloc::Global;
use std::test::Fail;

fn read(alloc: Global, text: &[u8]) -> Result<RawBody, BodyFault> {
    read_body(alloc, Bytes::from_slice(alloc, text)?)
}

/// Whether the series has the labels of the one write, and this profile.
fn is_written(series: &RawSeries, profile: &[u8]) -> bool {
    let named = [("__name__", "process_cpu"), ("job", "api")];
    match series.profiles.as_slice() {
        [one] => are_pairs(series.labels.as_slice(), &named) && one.as_slice() == profile,
        _ => false,
    }
}

fn is_one_series(body: &RawBody, profile: &[u8]) -> bool {
    match body.series.as_slice() {
        [one] => is_written(one, profile),
        _ => false,
    }
}

/// Whether the body of the one write is read with its profile.
fn is_read(alloc: Global) -> Result<bool, NoMemory> {
    let profile = profile(alloc)?;
    Ok(match read(alloc, BODY) {
        Ok(body) => is_one_series(&body, profile.as_slice()),
        Err(_) => false,
    })
}

#[test]
fn a_body_is_read_whole(rt: HostRuntime) -> Result<(), Fail> {
    assert!(rt; is_read(rt.alloc())?);
    Ok(())
}

/// The counts of the labels and the profiles of a series, and the length of its first profile.
fn counts_of_series(series: &RawSeries) -> [usize; 3] {
    let length = match series.profiles.get(0) {
        Some(profile) => profile.len(),
        None => 0,
    };
    [series.labels.len(), series.profiles.len(), length]
}

/// The count of the series, and the counts of the first one.
fn counts(body: &RawBody) -> (usize, [usize; 3]) {
    match body.series.get(0) {
        Some(series) => (body.series.len(), counts_of_series(series)),
        None => (0, [0, 0, 0]),
    }
}

fn has_counts(alloc: Global, text: &str, expected: (usize, [usize; 3])) -> bool {
    match read(alloc, text.as_bytes()) {
        Ok(body) => counts(&body) == expected,
        Err(_) => false,
    }
}

#[test]
fn missing_and_null_members_are_empty(rt: HostRuntime) {
    let cases = [
        ("{}", (0, [0, 0, 0])),
        ("{\"series\":null}", (0, [0, 0, 0])),
        (
            "{\"series\":3,\"series\":[{},{\"labels\":null,\"samples\":null}]}",
            (2, [0, 0, 0]),
        ),
        (
            "{\"series\":[{\"labels\":{\"labels\":[{\"name\":null},{}],\"x\":[1e3]},\"samples\":[{\"raw_profile\":\"aGk=\"},{}]}]}",
            (1, [2, 2, 2]),
        ),
    ];
    for (text, expected) in cases {
        assert!(rt; has_counts(rt.alloc(), text, expected), "{text}");
    }
}

const FIRST: BodyFault = BodyFault::BadBase64 {
    series: 0,
    sample: 0,
};

const SECOND: BodyFault = BodyFault::BadBase64 {
    series: 1,
    sample: 1,
};

const REFUSED: [(&str, BodyFault); 8] = [
    ("[", BodyFault::NotJson),
    ("{\"series\":3}", BodyFault::BadShape),
    ("[]", BodyFault::BadShape),
    ("{\"series\":[null]}", BodyFault::BadShape),
    (
        "{\"series\":[{\"samples\":[{\"rawProfile\":\"?\"}]}]}",
        FIRST,
    ),
    (
        "{\"series\":[{\"samples\":[{\"rawProfile\":\"\",\"raw_profile\":null}]}]}",
        BodyFault::BadShape,
    ),
    (
        "{\"series\":[{\"samples\":[{\"rawProfile\":\"?\"}]},1]}",
        BodyFault::BadShape,
    ),
    (
        "{\"series\":[{},{\"samples\":[{},{\"rawProfile\":\"aGk\"},{\"rawProfile\":\"?\"}]}]}",
        SECOND,
    ),
];

#[test]
fn other_bodies_are_refused(rt: HostRuntime) {
    for (text, fault) in REFUSED {
        assert!(rt;
            read(rt.alloc(), text.as_bytes()).err() == Some(fault),
            "{text}"
        );
    }
}
