ghost use Rattle.std.specs.Prelude.{◌≡◌, ◌<◌, ◌^◌, [], ◌∷◌, IfOk};
ghost use Rattle.fd_column.specs.Stacks.{AreShort};

use fd_column::{ColumnPart, Columns, PartBuilder, is_short};
use fd_kinds::{NoMemory, Numbered};
use fd_merge::merge;
use fixtures::{CPU, MadeRow, made_row};
use std::alloc::Global;
use std::test::Fail;

const EU: MadeRow<'static> = MadeRow {
    labels: &[("region", "eu")],
    ..CPU
};

const US: MadeRow<'static> = MadeRow {
    labels: &[("region", "us")],
    ..CPU
};

fn short_part_of(alloc: Global, row: &Numbered) -> Result<ColumnPart, NoMemory>
    requires number { row.now.number < 2 ^ 63 }
    requires short { AreShort row.now.row.stack }
    ensures { IfOk result (λ part. part ≡ row.now ∷ []) }
{
    PartBuilder::new(alloc).with_row(row)?.finish()
}

/// The columns of a row; a frame that is too long for a table wants memory.
fn part_of(alloc: Global, row: &Numbered) -> Result<ColumnPart, NoMemory>
    requires { row.now.number < 2 ^ 63 }
    ensures { IfOk result (λ part. part ≡ row.now ∷ []) }
{
    if is_short(&row.row.stack) {
        short_part_of(alloc, row)
    } else {
        Err(NoMemory)
    }
}

/// The columns of a row under its number.
fn part(alloc: Global, number: u64, made: &MadeRow) -> Result<ColumnPart, NoMemory>
    requires { number < 2 ^ 63 }
{
    let row = made_row(alloc, made)?;
    part_of(alloc, &Numbered { number, row })
}

/// The columns of both rows.
fn two_rows(alloc: Global) -> Result<ColumnPart, NoMemory> {
    let eu = part(alloc, 3, &EU)?;
    let us = part(alloc, 2, &US)?;
    merge(alloc, &eu, &us)
}

/// The columns of both rows, and of one that is equal to one of them.
fn three_rows(alloc: Global) -> Result<ColumnPart, NoMemory> {
    let two = two_rows(alloc)?;
    let eu = part(alloc, 1, &EU)?;
    merge(alloc, &two, &eu)
}

/// The batch of a row, and which of the distinct regions it has.
fn is_row(part: &ColumnPart, at: usize, number: i64, region: &[u8], index: usize) -> bool {
    if at >= part.len() || part.names().len() != 12 {
        return false;
    }
    let Some(regions) = part.dictionary(11) else {
        return false;
    };
    part.whole(0, at) == Some(number)
        && part.text(11, at) == Some(region)
        && regions.entries() == 2
        && regions.index(at) == Some(index)
        && regions.entry(index) == Some(region)
}

fn are_rows(part: &ColumnPart) -> bool {
    part.len() == 3
        && is_row(part, 0, 1, b"eu", 0)
        && is_row(part, 1, 3, b"eu", 0)
        && is_row(part, 2, 2, b"us", 1)
}

#[test]
fn equal_rows_of_two_batches_stay(rt: HostRuntime) -> Result<(), Fail> {
    assert!(rt; are_rows(&three_rows(rt.alloc())?));
    Ok(())
}
