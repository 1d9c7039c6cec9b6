ghost use Rattle.std.specs.Prelude.{◌≡◌, ℕ, ◌≤◌, ◌<◌, length, map, IfOk, OnOk, OnErr, Ok, None};
ghost use Rattle.fd_kinds.specs.declared.limits.TheConstants.{MOST_LOOSE_PARTS};
ghost use Rattle.fd_part.specs.Parts.{part_meaning};
ghost use Rattle.fd_shelf.specs.Books.{IsSealed, all_parts};
ghost use Rattle.fd_shelf.specs.Histories.{hist};
ghost use Rattle.fd_shelf.specs.Steps.{loose_upto};
ghost use Rattle.fd_shelf.specs.Replacement.{HasRowsOf, IsChanged, replaced};
ghost use Rattle.fd_compact.specs.Compactions.{Compacts, CompactsFull, loose_parts};

use crate::Compaction;
use crate::runs::{SealedRun, sealed_run};
use fd_kinds::NoMemory;
use fd_kinds::limits::MOST_LOOSE_PARTS;
use fd_part::Part;
use fd_shelf::{NotReplaced, Picked, Shelf};

/// Fewer parts are not compacted.
const FEWEST: usize = 2;

/// Puts a sealed part in place of the parts of its range, against which no number stands.
fn put(shelf: &mut Shelf<Part>, run: SealedRun) -> Compaction
    requires sealed { IsSealed (part_meaning run.part) }
    requires lo { (part_meaning run.part).lo ≡ run.lo }
    requires hi { (part_meaning run.part).hi ≡ run.hi }
    requires rows { HasRowsOf (all_parts shelf.old.book) (part_meaning run.part) }
    requires free { (n : ℕ) → IsChanged run.lo run.hi shelf.old.book.active n → ⊥ }
    ensures told { result ≡ Compaction.Compacted run.lo run.hi run.rows }
    ensures placed { shelf.new ≡ replaced (part_meaning run.part) shelf.old }
    ensures history { (m : ℕ) → hist shelf.new.book m ≡ hist shelf.old.book m }
{
    let SealedRun { lo, hi, rows, part } = run;
    let active = shelf.active();
    match shelf.replace(active, lo, hi, part) {
        Ok(()) => Compaction::Compacted { lo, hi, rows },
        Err(NotReplaced::Overtaken { .. }) => unreachable!(),
        Err(NotReplaced::Changed { .. }) => unreachable!(),
    }
}

/// Compacts the parts that a shelf told up to a limit.
fn compact_picked(
    shelf: &mut Shelf<Part>,
    limit: u64,
    picked: &Picked<Part>,
) -> Result<Compaction, NoMemory>
    requires { map (λ i. part_meaning i.part) picked.now ≡ loose_upto shelf.old.book limit }
    ensures compacts { IfOk result (λ done.
        Compacts (loose_upto shelf.old.book limit) shelf.old done shelf.new) }
    ensures unchanged { OnErr result (shelf.new ≡ shelf.old) }
    ensures history { (m : ℕ) → hist shelf.new.book m ≡ hist shelf.old.book m }
{
    let parts = picked.as_slice();
    if parts.len() < FEWEST {
        return Ok(Compaction::Nothing {
            parts: parts.len() as u64,
        });
    }
    shelf.level0_laws(limit);
    let sealed = sealed_run(picked.allocator(), parts)?;
    Ok(put(shelf, sealed))
}

/// Merges the loose parts of the active block that hold a number up to the limit, and puts one
/// sealed part in their place, which changes no batch of the history. Fewer than two parts stay as
/// they are.
pub fn compact_shelf(shelf: &mut Shelf<Part>, limit: u64) -> Result<Compaction, NoMemory>
    // Exactly fewer than two parts stay; else one sealed part has all their rows in order.
    ensures compacts { IfOk result (λ done.
        Compacts (loose_upto shelf.old.book limit) shelf.old done shelf.new) }
    ensures unchanged { OnErr result (shelf.new ≡ shelf.old) }

    // No batch is changed, and all else stays.
    ensures history { (m : ℕ) → hist shelf.new.book m ≡ hist shelf.old.book m }
    ensures mark { shelf.new.mark ≡ shelf.old.mark }
    ensures closed { shelf.new.book.closed ≡ shelf.old.book.closed }
    ensures stragglers { shelf.new.book.stragglers ≡ shelf.old.book.stragglers }
    ensures spare { shelf.new.spare ≡ shelf.old.spare }
{
    let picked = shelf.level0(limit)?;
    compact_picked(shelf, limit, &picked)
}

/// Compacts all loose parts of the active block where they are `MOST_LOOSE_PARTS` or more.
pub fn compact_full(shelf: &mut Shelf<Part>) -> Result<Option<Compaction>, NoMemory>
    // Exactly fewer parts stay, which takes no memory; else all are compacted.
    ensures compacts { IfOk result (λ done. CompactsFull shelf.old done shelf.new) }
    ensures few { length (loose_parts shelf.old) < MOST_LOOSE_PARTS → result ≡ Ok None }
    ensures fewer { OnOk result (length (loose_parts shelf.new) < MOST_LOOSE_PARTS) }
    ensures unchanged { OnErr result (shelf.new ≡ shelf.old) }

    // No batch is changed, and all else stays.
    ensures history { (m : ℕ) → hist shelf.new.book m ≡ hist shelf.old.book m }
    ensures mark { shelf.new.mark ≡ shelf.old.mark }
    ensures closed { shelf.new.book.closed ≡ shelf.old.book.closed }
    ensures stragglers { shelf.new.book.stragglers ≡ shelf.old.book.stragglers }
    ensures spare { shelf.new.spare ≡ shelf.old.spare }
{
    if shelf.loose() < MOST_LOOSE_PARTS {
        return Ok(None);
    }
    let limit = shelf.mark();
    shelf.level0_laws(limit);
    let done = compact_shelf(shelf, limit)?;
    Ok(Some(done))
}
