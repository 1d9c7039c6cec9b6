//! A write: the part waits for the own lane, gets its number, lands, and one sweep is tried.
ghost use Rattle.std.specs.Prelude.{◌≡◌, ◌≢◌, Err};
ghost use Rattle.fd_kinds.specs.History.{IsSmall};
ghost use Rattle.fd_pooled.specs.Calls.{HasWrittenOr};
ghost use Rattle.fd_pooled.specs.Pooling.{IsResting};
ghost use Rattle.fd_rule.specs.Seats.{IsSameSeat, seat_count, seat_state, seat_view};

use fd_kinds::{Batch, WriteRefusal};
use fd_part::Part;
use fd_pool::{draw_and_land, ready, try_sweep};
use fd_rule::Seat;
use fd_shelf::batch_laws;
use std::sync::Wait;

/// Writes a batch. All memory is taken before the number is drawn; behind that only the sweep may
/// find none, which is another's to do again.
pub(crate) fn write_batch<R: Wait>(
    rt: &R,
    seat: &mut Seat<Part>,
    batch: Batch,
) -> Result<u64, WriteRefusal>
    requires rest { IsResting (seat_state seat.old) }
    requires small { IsSmall batch.rows }
    ensures gives { HasWrittenOr
        (seat_count seat.old)
        (seat_view seat.old)
        batch.rows
        result
        (seat_view seat.new) }
    ensures disk { result ≢ Err WriteRefusal.DiskFault }
    ensures rest { IsResting (seat_state seat.new) }
    ensures same { IsSameSeat seat.old seat.new }
{
    batch_laws();
    let part = Part::fresh(batch)?;
    ready(rt, seat)?;
    match draw_and_land(seat, part) {
        Ok(receipt) => {
            let _ = try_sweep(seat);
            Ok(receipt.number)
        }
        Err(spent) => Err(WriteRefusal::Spent { drawn: spent.drawn }),
    }
}
