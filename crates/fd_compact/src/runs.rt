ghost use Rattle.std.specs.Prelude.{◌≡◌, ◌<◌, length, map, IfOk};
ghost use Rattle.fd_part.specs.Parts.{part_meaning};
ghost use Rattle.fd_shelf.specs.Books.{rows_in};
ghost use Rattle.fd_shelf.specs.Runs.{AreSealable};
ghost use Rattle.fd_shelf.specs.Steps.{lowest, highest};
ghost use Rattle.fd_compact.specs.Runs.{IsSealOf};

use crate::tables::{first_number, last_number, table_of};
use fd_column::Columns;
use fd_kinds::NoMemory;
use fd_part::Part;
use fd_shelf::InBlock;
use std::alloc::Global;

/// A sealed part that has all rows of others, the range of their numbers from `lo` to `hi`, and
/// the count of the rows.
#[derive(Debug, Drop)]
pub struct SealedRun {
    pub lo: u64,
    pub hi: u64,
    pub rows: u64,
    pub part: Part,
}

/// One sealed part with all rows of parts that follow one another, in order. The parts stay as
/// they are.
pub fn sealed_run(alloc: Global, parts: &[InBlock<Part>]) -> Result<SealedRun, NoMemory>
    requires some { 0 < length parts.now }
    requires sealable { AreSealable (map (λ i. part_meaning i.part) parts.now) }
    ensures lo { IfOk result (λ run.
        run.lo ≡ lowest (map (λ i. part_meaning i.part) parts.now)) }
    ensures hi { IfOk result (λ run.
        run.hi ≡ highest (map (λ i. part_meaning i.part) parts.now)) }
    ensures rows { IfOk result (λ run.
        run.rows ≡ length (rows_in (map (λ i. part_meaning i.part) parts.now))) }
    ensures seals { IfOk result (λ run.
        IsSealOf (map (λ i. part_meaning i.part) parts.now) (part_meaning run.part)) }
{
    let table = table_of(alloc, parts)?;
    table.in_order();
    let lo = first_number(parts);
    let hi = last_number(parts);
    let rows = table.len() as u64;
    let part = Part::seal(&table, lo, hi)?;
    Ok(SealedRun { lo, hi, rows, part })
}
