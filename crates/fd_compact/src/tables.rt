ghost use Rattle.std.specs.Prelude.{◌≡◌, ◌<◌, length, map, IfOk, IsPermutation};
ghost use Rattle.fd_part.specs.Parts.{part_meaning};
ghost use Rattle.fd_shelf.specs.Books.{Each, rows_in};
ghost use Rattle.fd_shelf.specs.Runs.{IsNumbered};
ghost use Rattle.fd_shelf.specs.Steps.{lowest, highest};

use fd_column::ColumnPart;
use fd_kinds::{Held, NoMemory};
use fd_merge::merge;
use fd_part::Part;
use fd_shelf::InBlock;
use std::alloc::Global;

/// The first number of parts.
pub(crate) fn first_number(parts: &[InBlock<Part>]) -> u64
    requires { 0 < length parts.now }
    ensures { result ≡ lowest (map (λ i. part_meaning i.part) parts.now) }
{
    parts[0].part.lo()
}

/// The last number of parts.
pub(crate) fn last_number(parts: &[InBlock<Part>]) -> u64
    requires { 0 < length parts.now }
    ensures { result ≡ highest (map (λ i. part_meaning i.part) parts.now) }
{
    parts[parts.len() - 1].part.hi()
}

/// All rows of parts as one table. The halves are merged, so that each row is moved as often as the
/// parts can be halved.
pub(crate) fn table_of(alloc: Global, parts: &[InBlock<Part>]) -> Result<ColumnPart, NoMemory>
    requires some { 0 < length parts.now }
    requires numbered { Each IsNumbered (map (λ i. part_meaning i.part) parts.now) }
    ensures { IfOk result (λ table.
        IsPermutation (rows_in (map (λ i. part_meaning i.part) parts.now)) table) }
{
    if parts.len() == 1 {
        return parts[0].part.columns();
    }
    let (left, right) = parts.split_at(parts.len() / 2);
    let left = table_of(alloc, left)?;
    let right = table_of(alloc, right)?;
    merge(alloc, &left, &right)
}
