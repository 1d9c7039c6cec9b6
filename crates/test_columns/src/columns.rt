ghost use Rattle.std.specs.Prelude.{◌≡◌, ◌<◌, ◌^◌, [], ◌∷◌, IfOk};
ghost use Rattle.fd_column.specs.Stacks.{AreShort};

use fd_column::{ColumnPart, Columns, PartBuilder, is_short};
use fd_kinds::{NoMemory, Numbered, Stack, Text};
use fixtures::{MadeRow, labels, made_row, texts};
use std::alloc::Global;
use std::test::Fail;

const ROW: MadeRow<'static> = MadeRow {
    kind: ["cpu", "samples", "count", "cycles", "nanoseconds"],
    labels: &[("zone", "1"), ("region", "eu")],
    timestamp: -5,
    frames: &["work", "main"],
    pprof_labels: &[("thread", "main"), ("none", "")],
    period: 10,
    duration: 20,
    value: 30,
};

fn numbered(alloc: Global) -> Result<Numbered, NoMemory>
    ensures { IfOk result (λ row. row.number ≡ 7) }
{
    let row = made_row(alloc, &ROW)?;
    Ok(Numbered { number: 7, row })
}

fn short_part_of(alloc: Global, row: &Numbered) -> Result<ColumnPart, NoMemory>
    requires number { row.now.number < 2 ^ 63 }
    requires short { AreShort row.now.row.stack }
    ensures { IfOk result (λ part. part ≡ row.now ∷ []) }
{
    PartBuilder::new(alloc).with_row(row)?.finish()
}

/// The columns of a row; a frame that is too long for a table wants memory.
fn part_of(alloc: Global, row: &Numbered) -> Result<ColumnPart, NoMemory>
    requires { row.now.number < 2 ^ 63 }
    ensures { IfOk result (λ part. part ≡ row.now ∷ []) }
{
    if is_short(&row.row.stack) {
        short_part_of(alloc, row)
    } else {
        Err(NoMemory)
    }
}

/// The columns of the one row.
fn part(alloc: Global) -> Result<ColumnPart, NoMemory> {
    let row = numbered(alloc)?;
    part_of(alloc, &row)
}

/// A column's name, and the text or the number that a row has there.
type Expected<'a> = (&'a str, Option<&'a [u8]>, Option<i64>);

const CELLS: [Expected<'static>; 14] = [
    ("_tx", None, Some(7)),
    ("name", Some(b"cpu"), None),
    ("sample_type", Some(b"samples"), None),
    ("sample_unit", Some(b"count"), None),
    ("period_type", Some(b"cycles"), None),
    ("period_unit", Some(b"nanoseconds"), None),
    ("timestamp", None, Some(-5)),
    (
        "stack",
        Some(b"\x04\x00\x00\x00work\x04\x00\x00\x00main"),
        None,
    ),
    ("period", None, Some(10)),
    ("duration", None, Some(20)),
    ("value", None, Some(30)),
    ("labels.region", Some(b"eu"), None),
    ("labels.zone", Some(b"1"), None),
    ("pprof_labels.thread", Some(b"main"), None),
];

/// Whether the only row has this cell in the column.
fn is_cell(part: &ColumnPart, column: usize, expected: &Expected<'_>) -> bool {
    if part.len() != 1 {
        return false;
    }
    let Some(name) = part.names().get(column) else {
        return false;
    };
    name.as_str() == expected.0
        && part.text(column, 0) == expected.1
        && part.whole(column, 0) == expected.2
}

/// Whether the columns are these, with the cells of the only row.
fn are_cells(part: &ColumnPart, expected: &[Expected<'_>]) -> bool {
    for (column, cell) in expected.iter().enumerate() {
        if !is_cell(part, column, cell) {
            return false;
        }
    }
    part.names().len() == expected.len()
}

#[test]
fn cells_stand_in_their_columns(rt: HostRuntime) -> Result<(), Fail> {
    assert!(rt; are_cells(&part(rt.alloc())?, &CELLS));
    Ok(())
}

/// Whether the columns of a row give it back.
fn comes_back(alloc: Global, row: &Numbered) -> Result<bool, NoMemory>
    requires { row.now.number < 2 ^ 63 }
{
    let part = part_of(alloc, row)?;
    if part.len() != 1 {
        return Ok(false);
    }
    Ok(part.row(0)? == *row)
}

#[test]
fn a_row_comes_back(rt: HostRuntime) -> Result<(), Fail> {
    let row = numbered(rt.alloc())?;
    assert!(rt; comes_back(rt.alloc(), &row)?);
    Ok(())
}

/// Whether the only row has this value of a label.
fn has_label(part: &ColumnPart, name: &Text, value: &[u8]) -> bool {
    let Some(column) = part.label_column(name) else {
        return false;
    };
    let Some(cells) = part.dictionary(column) else {
        return false;
    };
    cells.entries() == 1 && cells.entry(0) == Some(value) && cells.index(0) == Some(0)
}

fn has_labels(alloc: Global, part: &ColumnPart) -> Result<bool, NoMemory> {
    if part.len() != 1 {
        return Ok(false);
    }
    part.short();
    let expected = labels(alloc, &[("region", "eu"), ("zone", "1")])?;
    Ok(part.labels(0)? == expected)
}

fn has_stack(alloc: Global, part: &ColumnPart) -> Result<bool, NoMemory> {
    if part.len() != 1 {
        return Ok(false);
    }
    part.short();
    let expected = Stack::of(texts(alloc, &["work", "main"])?)?;
    Ok(part.stack(0)? == expected)
}

/// Whether the series labels of a part alone have columns of their own.
fn has_label_columns(alloc: Global, part: &ColumnPart) -> Result<bool, NoMemory> {
    let zone = Text::of(alloc, "zone")?;
    let thread = Text::of(alloc, "thread")?;
    Ok(has_label(part, &zone, b"1") && part.label_column(&thread).is_none())
}

#[test]
fn labels_and_a_stack_come_back(rt: HostRuntime) -> Result<(), Fail> {
    let part = part(rt.alloc())?;
    assert!(rt; has_label_columns(rt.alloc(), &part)?);
    assert!(rt; has_labels(rt.alloc(), &part)?);
    assert!(rt; has_stack(rt.alloc(), &part)?);
    Ok(())
}
