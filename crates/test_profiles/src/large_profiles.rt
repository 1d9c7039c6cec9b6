use fd_kinds::{Batch, Bytes, NoMemory, Row};
use fd_rows::{BatchFault, batch};
use fixtures::{add_field, add_message, add_varint, body_of, long_frames, pairs, series};
use std::alloc::Global;
use std::test::Fail;

/// What a body of one series with this profile gives.
fn batch_of(alloc: Global, profile: Bytes) -> Result<Result<Batch, BatchFault>, NoMemory> {
    let labels = pairs(alloc, &[("__name__", "process_cpu"), ("job", "api")])?;
    let body = body_of(alloc, series(alloc, labels, profile)?)?;
    Ok(batch(alloc, &body))
}

/// The locations of a sample of a CPU profile as Go writes it: 32 of 40.
fn cpu_locations(alloc: Global, k: u32) -> Result<Bytes, NoMemory> {
    let mut locations = Bytes::new(alloc);
    for i in 1..33 {
        add_varint(&mut locations, u64::from(k % 8) + i)?;
    }
    Ok(locations)
}

/// The count of the sample, and its nanoseconds.
fn cpu_values(alloc: Global, k: u32) -> Result<Bytes, NoMemory> {
    let count = u64::from(k) + 1;
    let mut values = Bytes::new(alloc);
    add_varint(&mut values, count)?;
    add_varint(&mut values, count * 10_000_000)?;
    Ok(values)
}

/// Adds the sample, which has a label.
fn add_cpu_sample(alloc: Global, all: &mut Bytes, k: u32) -> Result<(), NoMemory> {
    let mut sample = Bytes::new(alloc);
    add_message(&mut sample, 0x0a, cpu_locations(alloc, k)?.as_slice())?;
    add_message(&mut sample, 0x12, cpu_values(alloc, k)?.as_slice())?;
    add_message(&mut sample, 0x1a, &[8, 5, 0x10, 6 + (k % 4) as u8])?;
    add_message(all, 0x12, sample.as_slice())
}

fn add_cpu_samples(alloc: Global, all: &mut Bytes) -> Result<(), NoMemory> {
    for k in 0..300 {
        add_cpu_sample(alloc, all, k)?;
    }
    Ok(())
}

/// Adds the location, which has two lines, the first inlined into the second, and its function.
fn add_cpu_location(all: &mut Bytes, id: u8) -> Result<(), NoMemory> {
    let next = id % 40 + 1;
    let location = [
        8,
        id,
        0x10,
        id % 4 + 1,
        0x18,
        id,
        0x22,
        4,
        8,
        id,
        0x10,
        10,
        0x22,
        4,
        8,
        next,
        0x10,
        20,
    ];
    add_message(all, 0x22, &location)?;
    add_message(all, 0x2a, &[8, id, 0x10, 9 + id % 128])
}

const CPU_TEXTS: [&str; 10] = [
    "",
    "samples",
    "count",
    "cpu",
    "nanoseconds",
    "worker",
    "a",
    "b",
    "c",
    "d",
];

/// Adds the texts, of which the last name functions.
fn add_cpu_texts(all: &mut Bytes) -> Result<(), NoMemory> {
    for text in CPU_TEXTS {
        add_message(all, 0x32, text.as_bytes())?;
    }
    for id in 1u8..41 {
        add_message(all, 0x32, &[b'f', b'0' + id / 10, b'0' + id % 10])?;
    }
    Ok(())
}

/// Adds the mappings, the locations with their functions, and the texts.
fn add_cpu_tables(all: &mut Bytes) -> Result<(), NoMemory> {
    for id in 1..5 {
        add_message(all, 0x1a, &[8, id])?;
    }
    for id in 1..41 {
        add_cpu_location(all, id)?;
    }
    add_cpu_texts(all)
}

fn add_cpu_rest(all: &mut Bytes) -> Result<(), NoMemory> {
    add_field(all, 0x48, 1_700_000_000_000_000_000)?;
    add_field(all, 0x50, 30_000_000_000)?;
    add_message(all, 0x5a, &[8, 3, 0x10, 4])?;
    add_field(all, 0x60, 10_000_000)
}

/// A CPU profile of 30 seconds with 300 samples of 64 frames.
fn cpu_profile(alloc: Global) -> Result<Bytes, NoMemory> {
    let mut all = Bytes::from_slice(alloc, &[0x0a, 4, 8, 1, 0x10, 2, 0x0a, 4, 8, 3, 0x10, 4])?;
    add_cpu_samples(alloc, &mut all)?;
    add_cpu_tables(&mut all)?;
    add_cpu_rest(&mut all)?;
    Ok(all)
}

fn is_cpu_row(row: &Row) -> bool {
    row.stack.len() == 64
        && row.pprof_labels.pairs.len() == 1
        && row.duration == 30_000_000_000
        && row.timestamp == 1_700_000_000_000
}

/// The sum of the values of a sample type.
fn sum_of(rows: &[Row], kind: &str) -> i64 {
    let mut sum: i64 = 0;
    for row in rows {
        if row.sample_type.as_str() == kind {
            sum = sum.saturating_add(row.value);
        }
    }
    sum
}

fn are_cpu_rows(rows: &[Row]) -> bool {
    rows.len() == 600
        && rows.iter().all(|row| is_cpu_row(row))
        && sum_of(rows, "samples") == 45_150
        && sum_of(rows, "cpu") == 451_500_000_000
}

/// Whether the profile gives its rows.
fn gives_cpu_rows(alloc: Global) -> Result<bool, NoMemory> {
    let profile = cpu_profile(alloc)?;
    Ok(match batch_of(alloc, profile)? {
        Ok(batch) => are_cpu_rows(batch.rows.as_slice()),
        Err(_) => false,
    })
}

#[test]
fn a_cpu_profile_gives_a_row_for_each_value(rt: HostRuntime) -> Result<(), Fail> {
    assert!(rt; gives_cpu_rows(rt.alloc())?);
    Ok(())
}

/// How many rows a profile gives, none where they are too large.
fn rows_of(alloc: Global, profile: Bytes) -> Result<Option<usize>, NoMemory> {
    match batch_of(alloc, profile)? {
        Ok(batch) => Ok(Some(batch.rows.len())),
        Err(
            BatchFault::Large {
                series: 0,
                sample: 0,
            },
        ) => Ok(None),
        Err(_) => Err(NoMemory),
    }
}

#[test]
fn a_stack_that_many_samples_share_is_refused_by_its_size(rt: HostRuntime) -> Result<(), Fail> {
    let alloc = rt.alloc();
    assert!(rt; rows_of(alloc, long_frames(alloc, 20_000, 1, &[])?)?.is_none());
    assert!(rt; rows_of(alloc, long_frames(alloc, 20_000, 0, &[])?)? == Some(0));
    Ok(())
}

/// Adds a label with the key of this place in the string table, and the long text.
fn add_label(alloc: Global, messages: &mut Bytes, key: u64) -> Result<(), NoMemory> {
    let mut label = Bytes::new(alloc);
    add_field(&mut label, 8, key)?;
    add_field(&mut label, 0x10, 3)?;
    add_message(messages, 0x1a, label.as_slice())
}

/// 200 labels that share one long text: each with a key of its own, or all with one.
fn long_labels(alloc: Global, keys: bool) -> Result<Bytes, NoMemory> {
    let mut messages = Bytes::new(alloc);
    for k in 0..200 {
        add_label(alloc, &mut messages, if keys { 4 + k } else { 1 })?;
    }
    Ok(messages)
}

/// Adds the texts of the keys.
fn add_keys(all: &mut Bytes) -> Result<(), NoMemory> {
    for k in 0u8..200 {
        let digits = [b'0' + k / 100, b'0' + k / 10 % 10, b'0' + k % 10];
        add_message(all, 0x32, &digits)?;
    }
    Ok(())
}

/// How many rows a profile of one sample with these labels gives, none where they are too large.
fn rows_of_labels(alloc: Global, keys: bool) -> Result<Option<usize>, NoMemory> {
    let messages = long_labels(alloc, keys)?;
    let mut all = long_frames(alloc, 1, 1, messages.as_slice())?;
    add_keys(&mut all)?;
    rows_of(alloc, all)
}

#[test]
fn a_text_that_many_labels_share_is_refused_by_its_size(rt: HostRuntime) -> Result<(), Fail> {
    assert!(rt; rows_of_labels(rt.alloc(), true)?.is_none());
    assert!(rt; rows_of_labels(rt.alloc(), false)? == Some(1));
    Ok(())
}

/// The fault of a series of two profiles with 70 samples of the long stack each.
fn fault_of_two(alloc: Global) -> Result<Option<BatchFault>, NoMemory> {
    let labels = pairs(alloc, &[("__name__", "a")])?;
    let mut two = series(alloc, labels, long_frames(alloc, 70, 1, &[])?)?;
    two.profiles.push(long_frames(alloc, 70, 1, &[])?)?;
    let body = body_of(alloc, two)?;
    Ok(batch(alloc, &body).err())
}

#[test]
fn rows_are_too_many_at_the_profile_that_passes_the_limit(rt: HostRuntime) -> Result<(), Fail> {
    let fault = BatchFault::Large {
        series: 0,
        sample: 1,
    };
    assert!(rt; fault_of_two(rt.alloc())? == Some(fault));
    Ok(())
}
