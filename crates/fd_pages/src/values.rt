ghost use Rattle.std.specs.Prelude.{◌≡◌, ◌++◌, ◌<◌, ◌^◌, length, OnOk, All};
ghost use Rattle.fd_pages.specs.Columns.{Fits, sized, plain, plain_values};

use crate::Cell;
use fd_lists::{Bytes, NoMemory};

/// Adds bytes with their length before them.
pub(crate) fn put_sized(out: &mut Bytes, bytes: &[u8]) -> Result<(), NoMemory>
    requires { length bytes.now < 2 ^ 32 }
    ensures { OnOk result (out.new ≡ out.old ++ sized bytes.now) }
{
    out.extend(&(bytes.len() as u32).to_le_bytes())?;
    out.extend(bytes)
}

/// Adds the value of a cell, if it has one.
fn put_value(out: &mut Bytes, cell: &Cell) -> Result<(), NoMemory>
    requires { length (plain cell.now) < 2 ^ 32 }
    ensures ok { OnOk result (out.new ≡ out.old ++ plain cell.now) }
    ensures fits { OnOk result (Fits cell.now) }
{
    match cell {
        Cell::Absent => Ok(()),
        Cell::Whole(number) => out.extend(&number.to_le_bytes()),
        Cell::Bytes(bytes) => put_sized(out, bytes.as_slice()),
    }
}

/// Adds the values that are there, one after another.
pub(crate) fn put_values(out: &mut Bytes, cells: &[Cell]) -> Result<(), NoMemory>
    requires { length (plain_values cells.now) < 2 ^ 32 }
    ensures ok { OnOk result (out.new ≡ out.old ++ plain_values cells.now) }
    ensures fit { OnOk result (All Fits cells.now) }
{
    for cell in cells {
        put_value(out, cell)?;
    }
    Ok(())
}
