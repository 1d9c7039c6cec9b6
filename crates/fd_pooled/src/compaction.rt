//! Compaction beside writers and readers: the loose parts of the active block up to the least pin
//! become one sealed part, which is merged and sealed outside of any turn.
ghost use Rattle.std.specs.Prelude.{◌≡◌, ◌≤◌, map, IfOk, OnErr};
ghost use Rattle.fd_part.specs.Parts.{part_meaning};
ghost use Rattle.fd_pool.specs.Lists.{SeenRows};
ghost use Rattle.fd_pooled.specs.Compactions.{Ends, HasCompacted, HasRun, Puts};
ghost use Rattle.fd_pooled.specs.Pooling.{IsResting};
ghost use Rattle.fd_pooled.specs.Steps.{Looks};
ghost use Rattle.fd_rule.specs.Seats.{IsSameSeat, seat_count, seat_state, seat_view};
ghost use Rattle.fd_rule.specs.View.{Given};
ghost use Rattle.fd_shelf.specs.Books.{IsSealed};
ghost use Rattle.fd_shelf.specs.Steps.{placed_in};

use fd_compact::{Compaction, SealedRun, sealed_run};
use fd_kinds::NoMemory;
use fd_part::Part;
use fd_pins::{Limit, limit, raise_floor};
use fd_pool::{run_upto, swap};
use fd_rule::Seat;
use fd_shelf::{NotReplaced, Picked};
use std::sync::Wait;

/// Fewer parts are not compacted.
const FEWEST: usize = 2;

/// Puts the sealed part in place of its run, or tells what stands against it.
fn put_run<R: Wait>(
    rt: &R,
    seat: &mut Seat<Part>,
    least: &Limit,
    block: u64,
    run: SealedRun,
) -> Compaction
    requires rest { IsResting (seat_state seat.old) }
    requires sealed { IsSealed (part_meaning run.part) }
    requires lo { (part_meaning run.part).lo ≡ run.lo }
    requires hi { (part_meaning run.part).hi ≡ run.hi }
    requires rows { SeenRows (seat_view seat.old).seen.history (part_meaning run.part) }
    requires limit { run.hi ≤ least.now.l }
    requires floor { least.now.l ≤ (seat_view seat.old).pinning.raised }
    ensures puts { Puts
        block
        run.lo
        run.hi
        run.rows
        (part_meaning run.part)
        (seat_view seat.old)
        result
        (seat_view seat.new) }
    ensures looks { Looks (seat_view seat.old) (seat_view seat.new) }
    ensures rest { IsResting (seat_state seat.new) }
    ensures same { IsSameSeat seat.old seat.new }
{
    let SealedRun { lo, hi, rows, part } = run;
    match swap(rt, seat, least, block, lo, hi, part) {
        Ok(()) => Compaction::Compacted { lo, hi, rows },
        Err(NotReplaced::Overtaken { block, part: _ }) => Compaction::Overtaken { block },
        Err(NotReplaced::Changed { at, part: _ }) => Compaction::Changed { at },
    }
}

/// Merges and seals the run, and puts the sealed part in its place.
fn compact_run<R: Wait>(
    rt: &R,
    seat: &mut Seat<Part>,
    least: &Limit,
    picked: &Picked<Part>,
) -> Result<Compaction, NoMemory>
    requires rest { IsResting (seat_state seat.old) }
    requires floor { least.now.l ≤ (seat_view seat.old).pinning.raised }
    requires run { (g : Given)
        × HasRun
        least.now.l
        g
        (map (λ i. placed_in i.block (part_meaning i.part)) picked.now)
        (map (λ i. part_meaning i.part) picked.now)
        (seat_view seat.old) }
    ensures ends { IfOk result (λ done. (g : Given)
        → HasRun
        least.now.l
        g
        (map (λ i. placed_in i.block (part_meaning i.part)) picked.now)
        (map (λ i. part_meaning i.part) picked.now)
        (seat_view seat.old)
        → Ends least.now.l g (seat_view seat.old) done (seat_view seat.new)) }
    ensures looks { Looks (seat_view seat.old) (seat_view seat.new) }
    ensures rest { IsResting (seat_state seat.new) }
    ensures same { IsSameSeat seat.old seat.new }
{
    let parts = picked.as_slice();
    if parts.len() < FEWEST {
        return Ok(Compaction::Nothing {
            parts: parts.len() as u64,
        });
    }
    let block = parts[0].block;
    let run = sealed_run(picked.allocator(), parts)?;
    Ok(put_run(rt, seat, least, block, run))
}

/// Scans the pins, raises the floor to the least, and puts one sealed part in place of the loose
/// parts of the active block up to it. It takes the turn twice, to list the parts and to put the
/// sealed one in their place; the merge and the sealing run between. The seat has no pin and takes
/// none.
pub fn compact_once<R: Wait>(rt: &R, seat: &mut Seat<Part>) -> Result<Compaction, NoMemory>
    requires rest { IsResting (seat_state seat.old) }
    ensures compacts { IfOk result (λ done.
        HasCompacted (seat_count seat.old) (seat_view seat.old) done (seat_view seat.new)) }

    // Nothing is drawn or pinned, and what the seat knows is kept.
    ensures looks { Looks (seat_view seat.old) (seat_view seat.new) }
    ensures rest { IsResting (seat_state seat.new) }
    ensures same { IsSameSeat seat.old seat.new }
{
    let least = limit(seat);
    raise_floor(seat, &least);
    let picked = run_upto(rt, seat, &least)?;
    compact_run(rt, seat, &least, &picked)
}
