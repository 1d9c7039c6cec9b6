ghost use Rattle.std.specs.Prelude.{◌<◌};

use crate::files::{FILE, same_rows, table};
use fd_column::Columns;
use fd_kinds::{Bytes, Held, NoMemory};
use fd_parquet::FileFault;
use fd_part::Part;
use fixtures::{CPU, MadeRow, made_batch};
use std::alloc::Global;
use std::test::Fail;

const ROWS: [MadeRow<'static>; 2] = [
    MadeRow {
        labels: &[("region", "us")],
        ..CPU
    },
    MadeRow {
        labels: &[("region", "eu")],
        ..CPU
    },
];

/// The bytes of one row.
const ROW: u64 = 5 * 4 + 11 + 3 + 11 + 3 + 11 + 4 + (4 + 6) + (4 + 2) + 4 + 4 + 32;

/// Whether a part is loose under this number, with both rows.
fn is_loose(part: &Part, number: u64) -> bool {
    (part.lo(), part.hi()) == (number, number)
        && (part.rows(), part.bytes()) == (2, 2 * ROW)
        && !part.sealed()
        && part.file().is_none()
}

/// The part of both rows under a number.
fn numbered(alloc: Global, number: u64) -> Result<Part, NoMemory>
    requires { 0 < number }
{
    let mut part = Part::fresh(made_batch(alloc, &ROWS)?)?;
    part.number(number);
    Ok(part)
}

#[test]
fn a_numbered_part_is_shared(rt: HostRuntime) -> Result<(), Fail> {
    let part = numbered(rt.alloc(), 9)?;
    assert!(rt; is_loose(&part.share()?, 9));
    Ok(())
}

/// Whether the columns of a part have both rows with the number.
fn has_columns(part: &Part, number: u64) -> Result<bool, NoMemory> {
    if part.hi() >= 1 << 63 {
        return Ok(false);
    }
    let columns = part.columns()?;
    if columns.len() != 2 {
        return Ok(false);
    }
    Ok(columns.names().len() == 12 && columns.row(1)?.number == number && part.cells().len() == 2)
}

#[test]
fn rows_stand_in_columns_with_their_number(rt: HostRuntime) -> Result<(), Fail> {
    assert!(rt; has_columns(&numbered(rt.alloc(), 9)?, 9)?);
    Ok(())
}

/// The bytes of the rows of the table: texts, labels, frames and numbers, and lengths before texts.
const TABLE: u64 = (5 * 4 + 20 + 4 + 13 + (4 + 8 + 8) + 4 + 32)
    + (5 * 4 + 20 + 4 + 13 + 4 + (4 + 10 + 8) + 32);

/// Whether a part is sealed, with the range, the two rows and the file of the table.
fn is_sealed(part: &Part) -> bool {
    part.sealed()
        && (part.lo(), part.hi()) == (6, 9)
        && (part.rows(), part.bytes()) == (2, TABLE)
        && part.file() == Some(FILE.as_slice())
}

fn sealed(alloc: Global) -> Result<Part, NoMemory> {
    let table = table(alloc)?;
    Part::seal(&table, 6, 9)
}

#[test]
fn a_sealed_part_has_its_range_its_rows_and_a_file(rt: HostRuntime) -> Result<(), Fail> {
    assert!(rt; is_sealed(&sealed(rt.alloc())?));
    Ok(())
}

/// Whether the part has the rows of the table.
fn has_rows(alloc: Global, part: &Part) -> Result<bool, NoMemory> {
    let table = table(alloc)?;
    same_rows(part.cells(), &table)
}

/// Whether the file of the table is opened as its part.
fn is_opened(alloc: Global) -> Result<bool, NoMemory> {
    let file = Bytes::from_slice(alloc, &FILE)?;
    match Part::opened(file) {
        Ok(part) => Ok(is_sealed(&part) && has_rows(alloc, &part)?),
        Err(_) => Ok(false),
    }
}

#[test]
fn the_file_of_a_sealed_part_is_opened(rt: HostRuntime) -> Result<(), Fail> {
    assert!(rt; is_opened(rt.alloc())?);
    Ok(())
}

#[test]
fn bytes_that_are_no_file_are_not_opened(rt: HostRuntime) -> Result<(), Fail> {
    let refused = Part::opened(Bytes::from_slice(rt.alloc(), b"PAR1")?).err();
    assert!(rt; refused == Some(FileFault::Magic));
    Ok(())
}
