use fd_kinds::{Batch, NoMemory, Row, compare_rows, row_bytes};
use fixtures::{CPU, MadeRow, are_pairs, made_rows};
use std::alloc::Global;
use std::cmp::Ordering;
use std::test::Fail;

/// Labels of which one is given twice and one has no name.
const ZONE: &[(&str, &str)] = &[
    ("region", "eu"),
    ("zone", "x"),
    ("region", "us"),
    ("", "dropped"),
];

const AREA: &[(&str, &str)] = &[
    ("region", "eu"),
    ("area", "x"),
    ("region", "us"),
    ("", "dropped"),
];

const ROWS: [MadeRow<'static>; 3] = [
    MadeRow {
        labels: ZONE,
        value: 7,
        frames: &["leaf"],
        ..CPU
    },
    MadeRow {
        labels: AREA,
        value: 7,
        frames: &["leaf"],
        ..CPU
    },
    MadeRow {
        labels: ZONE,
        value: 3,
        frames: &["leaf"],
        ..CPU
    },
];

/// The bytes of a row: its texts with their lengths, two labels, a frame, the counts, the numbers.
const ROW: u64 = 5 * 4 + 11 + 3 + 11 + 3 + 11 + 4 + 16 + 6 + 2 + 4 + 1 + 4 + 8 + 4 + 32;

fn is_row(row: &Row, value: i64, labels: &[(&str, &str)]) -> bool {
    row.value == value && are_pairs(row.labels.pairs.as_slice(), labels) && row_bytes(row) == ROW
}

/// Whether the rows stand in order: a label that others lack comes last, and then the value counts.
fn are_in_order(rows: &[Row]) -> bool {
    match rows {
        [first, second, third] => {
            is_row(first, 3, &[("region", "us"), ("zone", "x")])
                && is_row(second, 7, &[("region", "us"), ("zone", "x")])
                && is_row(third, 7, &[("area", "x"), ("region", "us")])
                && compare_rows(second, third) == Ordering::Less
        }
        _ => false,
    }
}

fn batch(alloc: Global) -> Result<Batch, NoMemory> {
    Batch::of(made_rows(alloc, &ROWS)?)
}

#[test]
fn rows_of_a_batch_stand_in_order(rt: HostRuntime) -> Result<(), Fail> {
    assert!(rt; are_in_order(batch(rt.alloc())?.rows.as_slice()));
    Ok(())
}
