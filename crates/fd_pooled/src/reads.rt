//! A query: the parts up to the mark that is pinned after a sweep, and the answer from them.
ghost use Rattle.std.specs.Prelude.{◌≡◌};
ghost use Rattle.fd_pooled.specs.Calls.{HasReadOr};
ghost use Rattle.fd_pooled.specs.Pooling.{IsResting};
ghost use Rattle.fd_rule.specs.Seats.{IsSameSeat, seat_count, seat_state, seat_view};

use crate::lists::pin_and_list;
use crate::sweeps::sweep_upto;
use fd_answer::answer;
use fd_kinds::{Query, ReadRefusal, Seen, meaning_laws};
use fd_part::Part;
use fd_pool::drawn;
use fd_rule::Seat;
use std::sync::Wait;

/// Answers a query over the batches up to a watermark that is at least `after`. No turn is held
/// while the answer is made.
pub(crate) fn read_query<R: Wait>(
    rt: &R,
    seat: &mut Seat<Part>,
    after: u64,
    query: &Query,
) -> Result<Seen, ReadRefusal>
    requires rest { IsResting (seat_state seat.old) }
    ensures gives { HasReadOr
        (seat_count seat.old)
        (seat_view seat.old)
        after
        query.now
        result
        (seat_view seat.new) }
    ensures rest { IsResting (seat_state seat.new) }
    ensures same { IsSameSeat seat.old seat.new }
{
    let drawn = drawn(seat);
    if after > drawn {
        return Err(ReadRefusal::NotDrawn { drawn });
    }
    sweep_upto(rt, seat, after)?;
    let listed = pin_and_list(rt, seat)?;
    let answer = answer(query, &listed.parts)?;
    meaning_laws();
    Ok(Seen {
        watermark: listed.watermark,
        answer,
    })
}
