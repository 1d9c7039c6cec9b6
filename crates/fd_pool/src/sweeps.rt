//! One turn that goes over all lanes.
ghost use Rattle.std.specs.Prelude.{◌≡◌, ◌+◌, ◌<◌, ◌≤◌, [], ◌∷◌};
ghost use Rattle.fd_pool.specs.Kept.{HasDrawn, IsFree};
ghost use Rattle.fd_pool.specs.Sweeps.{HasSwept, Sweeping};
ghost use Rattle.fd_rule.specs.Kinds.MarkRaise.{with_raised};
ghost use Rattle.fd_rule.specs.Kinds.TurnReturn.{IsWhole, given_of, with_given};
ghost use Rattle.fd_rule.specs.Kinds.TurnTry.{Later, with_book};
ghost use Rattle.fd_rule.specs.Seats.{IsSameSeat, seat_count, seat_state, seat_view};
ghost use Rattle.fd_rule.specs.View.{View};
ghost use Rattle.fd_rule.specs.declared.slot.SlotValue.TheVariants.{Empty};
ghost use Rattle.fd_shelf.specs.Books.{Book};
ghost use Rattle.fd_shelf.specs.Histories.{hist};

use crate::turns::give_up;
use fd_kinds::Held;
use fd_rule::{Seat, Turn, clear_lane, give_turn, lane_part, load_lane, raise_mark, take_turn};
use fd_shelf::{Shelf, book_laws, straggler_laws};

/// What became of a sweep.
#[derive(Debug, Drop, Clone, Copy, PartialEq, Eq)]
pub enum Sweep {
    /// Each lane was looked at, each batch that was found is in the book, and so is each that the
    /// seat has landed. The turn was given back at this mark, and the number behind it is not in
    /// the book.
    Swept { mark: u64 },
    /// This seat has the turn.
    Busy { holder: u64 },
    /// The turn was taken, and given back as it was.
    NoMemory,
}

/// Takes the batch of one lane into the book, where it has one.
fn gather_one<P: Held>(seat: &mut Seat<P>, shelf: &mut Shelf<P>, lane: u32)
    requires inside { lane < seat_count seat.old }
    requires so_far { Sweeping
        (seat_count seat.old)
        (seat_view seat.old)
        (seat_state seat.old)
        shelf.old
        lane }
    ensures so_far { Sweeping
        (seat_count seat.old)
        (seat_view seat.old)
        (seat_state seat.new)
        shelf.new
        (lane + 1) }
    ensures same { IsSameSeat seat.old seat.new }
{
    if load_lane(seat, lane) == 0 {
        return;
    }
    let part = lane_part(seat, lane);
    shelf.is_in_order();
    straggler_laws();
    shelf.admit(part);
    clear_lane(seat, lane);
}

/// Goes over all lanes.
fn gather<P: Held>(seat: &mut Seat<P>, shelf: &mut Shelf<P>, seats: u32)
    requires seats { seats ≡ seat_count seat.old }
    requires so_far { Sweeping
        (seat_count seat.old)
        (seat_view seat.old)
        (seat_state seat.old)
        shelf.old
        0 }
    ensures so_far { Sweeping
        (seat_count seat.old)
        (seat_view seat.old)
        (seat_state seat.new)
        shelf.new
        seats }
    ensures same { IsSameSeat seat.old seat.new }
{
    for lane in 0..seats {
        gather_one(seat, shelf, lane);
    }
}

/// Raises the mark over what came into the book, and gives the turn back.
fn end_turn<P: Held>(seat: &mut Seat<P>, shelf: Shelf<P>) -> u64
    requires so_far { Sweeping
        (seat_count seat.old)
        (seat_view seat.old)
        (seat_state seat.old)
        shelf
        (seat_count seat.old) }
    ensures rises { (seat_view seat.old).turn.mark ≤ result }
    ensures whole { (book : Book)
        × ((seat_state seat.new) ≡ (with_given book (with_raised result (seat_view seat.old)), []))
        × (hist book result ≡ hist (seat_view seat.old).turn.book result)
        × IsWhole (seat_count seat.old) (given_of book (with_raised result (seat_view seat.old))) }
    ensures drawn { HasDrawn (seat_view seat.old) → HasDrawn (seat_view seat.new) }
    ensures same { IsSameSeat seat.old seat.new }
{
    let mut shelf = shelf;
    let mark = shelf.advance();
    shelf.is_in_order();
    book_laws();
    raise_mark(seat, mark);
    give_turn(seat, shelf);
    mark
}

/// The rest of a sweep, with the turn.
fn sweep_taken<P: Held>(seat: &mut Seat<P>, shelf: Shelf<P>) -> Sweep
    requires taken { (v : View)
        × IsFree {P = P} (v, [])
        × Later shelf v
        × ((seat_state seat.old) ≡ (with_book shelf v, (0, Empty) ∷ [])) }
    ensures swept { (v : View)
        → IsFree {P = P} (v, [])
        → Later shelf v
        → (seat_state seat.old) ≡ (with_book shelf v, (0, Empty) ∷ [])
        → HasSwept (seat_count seat.old) v result (seat_view seat.new) }
    ensures free { IsFree (seat_state seat.new) }
    ensures same { IsSameSeat seat.old seat.new }
{
    let mut shelf = shelf;
    let seats = seat.count();
    if shelf.reserve(seats as u64).is_err() {
        give_up(seat, shelf);
        return Sweep::NoMemory;
    }
    gather(seat, &mut shelf, seats);
    let mark = end_turn(seat, shelf);
    Sweep::Swept { mark }
}

/// One turn, if nobody has it: each batch that lies in a lane comes into the book, and the mark
/// rises as far as the book has every number. It takes memory only where the shelf has room for
/// fewer parts than there are seats.
pub fn try_sweep<P: Held>(seat: &mut Seat<P>) -> Sweep
    requires free { IsFree (seat_state seat.old) }
    ensures swept { HasSwept
        (seat_count seat.old)
        (seat_view seat.old)
        result
        (seat_view seat.new) }
    ensures free { IsFree (seat_state seat.new) }
    ensures same { IsSameSeat seat.old seat.new }
{
    match take_turn(seat) {
        Turn::Held { holder } => Sweep::Busy { holder },
        Turn::Taken(shelf) => sweep_taken(seat, shelf),
    }
}
