ghost use Rattle.std.specs.Prelude.{◌≡◌, ◌+◌, ◌∷◌};
ghost use Rattle.atomic_table.specs.Table.{rest};
ghost use Rattle.fd_rule.specs.Kinds.LaneLoad.{HasLoaded, MayLoad};
ghost use Rattle.fd_rule.specs.Seats.{IsSameSeat, seat_count, seat_slots, seat_state, seat_view};
ghost use Rattle.fd_rule.specs.declared.slot.SlotValue.TheVariants.{Empty, Landed};

use crate::plays::LaneLoad;
use crate::seat::Seat;
use crate::slot::SlotValue;
use fd_kinds::Held;

/// The number in a lane, 0 where it is empty. The holder of the turn has the part of a lane that it
/// finds filled, by `lane_part`; it takes one lane after the other. It takes no memory.
pub fn load_lane<P: Held>(seat: &mut Seat<P>, lane: u32) -> u64
    requires may { MayLoad (seat_count seat.old) lane (seat_view seat.old).turn }
    ensures loaded { HasLoaded P.means lane result (seat_state seat.old) (seat_state seat.new) }
    ensures same { IsSameSeat seat.old seat.new }
{
    seat.board
        .shared
        .load::<LaneLoad>(&mut seat.inner, 2 * lane as usize + 5)
}

/// The part of a lane that the holder of the turn found filled and has not taken out yet. It is no
/// step on a word, and takes no memory.
pub fn lane_part<P: Held>(seat: &mut Seat<P>, lane: u32) -> P
    requires filled { (part : P)
        × ((seat_slots seat.old) ≡ (1 + lane, Landed part) ∷ rest (seat_slots seat.old)) }
    ensures part { seat_slots seat.old
        ≡ (1 + lane, Landed result) ∷ rest (seat_slots seat.old) }
    ensures me { seat_state seat.new
        ≡ (seat_view seat.old, (1 + lane, Empty) ∷ rest (seat_slots seat.old)) }
    ensures same { IsSameSeat seat.old seat.new }
{
    match seat
        .board
        .shared
        .exchange(&mut seat.inner, 1 + lane as usize, SlotValue::Empty)
    {
        SlotValue::Landed(part) => part,
        _ => unreachable!(),
    }
}
