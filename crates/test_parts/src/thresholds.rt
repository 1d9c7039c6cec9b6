ghost use Rattle.std.specs.Prelude.{◌≡◌, [], IfOk};
ghost use Rattle.fd_kinds.specs.History.{IsSmall};

use crate::compactions::is_one_file;
use fd_compact::{Compaction, compact_full};
use fd_kinds::{Batch, Held, NoMemory};
use fd_part::Part;
use fd_shelf::Shelf;
use fixtures::{CPU, made_batch};
use std::alloc::Global;
use std::test::Fail;

/// Adds a small batch under the number that follows the mark.
fn add(shelf: &mut Shelf<Part>, batch: Batch) -> Result<(), NoMemory>
    requires alone { shelf.old.book.stragglers ≡ [] }
    requires small { IsSmall batch.rows }
    ensures { shelf.new.book.stragglers ≡ [] }
{
    let mut part = Part::fresh(batch)?;
    shelf.reserve(1)?;
    let mark = shelf.mark();
    if mark >= 1_000 {
        return Err(NoMemory);
    }
    part.number(mark + 1);
    if part.bytes() > 1_000 {
        return Err(NoMemory);
    }
    shelf.admit(part);
    shelf.advance();
    Ok(())
}

/// A shelf with so many loose parts of one row.
fn loose_parts(alloc: Global, count: u64) -> Result<Shelf<Part>, NoMemory>
    ensures { IfOk result (λ shelf. shelf.book.stragglers ≡ []) }
{
    let mut shelf = Shelf::new(alloc);
    for _ in 0..count {
        add(&mut shelf, made_batch(alloc, &[CPU])?)?;
    }
    Ok(shelf)
}

/// Whether so many loose parts become one sealed part.
fn become_one(alloc: Global, count: u64) -> Result<bool, NoMemory> {
    let mut shelf = loose_parts(alloc, count)?;
    let all = Compaction::Compacted {
        lo: 1,
        hi: count,
        rows: count,
    };
    Ok(
        shelf.loose() == count
            && compact_full(&mut shelf)? == Some(all)
            && is_one_file(&shelf, count, count)?,
    )
}

#[test]
fn sixteen_parts_become_one(rt: HostRuntime) -> Result<(), Fail> {
    assert!(rt; become_one(rt.alloc(), 16)?);
    Ok(())
}

#[test]
fn seventeen_parts_become_one(rt: HostRuntime) -> Result<(), Fail> {
    assert!(rt; become_one(rt.alloc(), 17)?);
    Ok(())
}

#[test]
fn thirty_three_parts_become_one(rt: HostRuntime) -> Result<(), Fail> {
    assert!(rt; become_one(rt.alloc(), 33)?);
    Ok(())
}
