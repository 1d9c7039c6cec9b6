ghost use Rattle.std.specs.Prelude.{◌≡◌, ◌≤◌, ◌<◌, ◌+◌};
ghost use Rattle.fd_rule.specs.Seats.{IsSameSeat, seat_count, seat_state, seat_view};
ghost use Rattle.test_table.specs.Seats.{AtRest, InHand};

use fd_rule::{Seat, Turn, clear_lane, give_turn, lane_part, load_lane, raise_mark, take_turn};
use fd_shelf::{Shelf, book_laws, straggler_laws};
use stubs::Stub;

/// Takes the batch of one lane into the book, where it has one.
fn gather_one(seat: &mut Seat<Stub>, shelf: &mut Shelf<Stub>, lane: u32)
    requires inside { lane < seat_count seat.old }
    requires hand { InHand shelf.old (seat_state seat.old) }
    requires room { 0 < shelf.old.spare }
    ensures hand { InHand shelf.new (seat_state seat.new) }
    ensures room { shelf.old.spare ≤ shelf.new.spare + 1 }
    ensures same { IsSameSeat seat.old seat.new }
    ensures place { (seat_view seat.new).place ≡ (seat_view seat.old).place }
{
    if load_lane(seat, lane) == 0 {
        return;
    }
    let part = lane_part(seat, lane);
    shelf.is_in_order();
    straggler_laws();
    shelf.admit(part);
    clear_lane(seat, lane);
}

fn gather(seat: &mut Seat<Stub>, shelf: &mut Shelf<Stub>, count: u32)
    requires count { count ≡ seat_count seat.old }
    requires hand { InHand shelf.old (seat_state seat.old) }
    requires room { count ≤ shelf.old.spare }
    ensures hand { InHand shelf.new (seat_state seat.new) }
    ensures same { IsSameSeat seat.old seat.new }
    ensures place { (seat_view seat.new).place ≡ (seat_view seat.old).place }
{
    for lane in 0..count {
        gather_one(seat, shelf, lane);
    }
}

/// Raises the mark as far as the book reaches, and gives the turn back.
fn finish(seat: &mut Seat<Stub>, shelf: Shelf<Stub>) -> u64
    requires hand { InHand shelf (seat_state seat.old) }
    ensures rest { AtRest (seat_state seat.new) }
    ensures same { IsSameSeat seat.old seat.new }
    ensures place { (seat_view seat.new).place ≡ (seat_view seat.old).place }
{
    let mut shelf = shelf;
    let mark = shelf.advance();
    shelf.is_in_order();
    book_laws();
    raise_mark(seat, mark);
    give_turn(seat, shelf);
    mark
}

/// One turn over all lanes, which answers the mark; none where another seat has the turn.
pub fn sweep(seat: &mut Seat<Stub>) -> Option<u64>
    requires rest { AtRest (seat_state seat.old) }
    ensures rest { AtRest (seat_state seat.new) }
    ensures same { IsSameSeat seat.old seat.new }
    ensures place { (seat_view seat.new).place ≡ (seat_view seat.old).place }
{
    let Turn::Taken(shelf) = take_turn(seat) else {
        return None;
    };
    let mut shelf = shelf;
    let count = seat.count();
    if shelf.reserve(count as u64).is_ok() {
        gather(seat, &mut shelf, count);
    }
    Some(finish(seat, shelf))
}
