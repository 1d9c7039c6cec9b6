ghost use Rattle.std.specs.Prelude.{◌≡◌, ◌≤◌, [], map, true};
ghost use Rattle.fd_kinds.specs.Parts.{PartMeaning};
ghost use Rattle.fd_rule.specs.Kinds.TurnReturn.{SameRows, SealsUpto};
ghost use Rattle.fd_rule.specs.Seats.{IsSameSeat, seat_state, seat_view};
ghost use Rattle.fd_shelf.specs.Books.{all_parts};
ghost use Rattle.fd_shelf.specs.Numbers.{Keeps};
ghost use Rattle.fd_shelf.specs.Replacement.{HasRowsOf};
ghost use Rattle.fd_shelf.specs.Steps.{highest};
ghost use Rattle.test_table.specs.Seats.{AtRest};
ghost use Rattle.stubs.specs.Stubs.{sealed_stub, stub_meaning};

use crate::pins::lift;
use fd_kinds::Held;
use fd_rule::{Seat, Turn, give_turn, take_turn};
use fd_shelf::{InBlock, Shelf, book_laws};
use stubs::Stub;

/// The last number of parts, and 0 where there is none.
pub(crate) fn last_number(parts: &[InBlock<Stub>]) -> u64
    ensures { result ≡ highest (map (λ i. stub_meaning i.part) parts.now) }
{
    let mut last = 0;
    for placed in parts {
        last = placed.part.hi();
    }
    last
}

/// Puts one sealed part in place of the loose parts from `lo` to `hi`.
fn seal_run(shelf: &mut Shelf<Stub>, lo: u64, hi: u64) -> bool
    requires ordered { lo ≤ hi }
    requires rows { HasRowsOf (all_parts shelf.old.book) (sealed_stub lo hi) }
    ensures mark { shelf.new.mark ≡ shelf.old.mark }
    ensures rows { SameRows shelf.old.book shelf.new.book }
    ensures keeps { Keeps shelf.old.book shelf.new.book }
    ensures sealed { SealsUpto hi shelf.old.book shelf.new.book }
{
    let part = Stub {
        lo,
        hi,
        sealed: true,
    };
    let active = shelf.active();
    shelf.is_in_order();
    book_laws();
    match shelf.replace(active, lo, hi, part) {
        Ok(()) => {
            shelf.is_in_order();
            true
        }
        Err(_) => false,
    }
}

/// Puts one sealed part in place of the loose parts up to a limit, and answers its last number.
fn seal_upto(shelf: &mut Shelf<Stub>, limit: u64) -> Option<u64>
    ensures mark { shelf.new.mark ≡ shelf.old.mark }
    ensures rows { SameRows shelf.old.book shelf.new.book }
    ensures keeps { Keeps shelf.old.book shelf.new.book }
    ensures sealed { SealsUpto limit shelf.old.book shelf.new.book }
{
    let Ok(picked) = shelf.level0(limit) else {
        return None;
    };
    let parts = picked.as_slice();
    let hi = last_number(parts);
    let [first, ..] = parts else {
        return None;
    };
    let lo = first.part.lo();
    if limit < hi {
        return None;
    }
    shelf.level0_laws(limit);
    if seal_run(shelf, lo, hi) {
        Some(hi)
    } else {
        None
    }
}

/// Seals the loose parts up to the limit of a scan as one, and answers the last number of it. None
/// where another seat has the turn, or no part is sealed.
pub fn seal(seat: &mut Seat<Stub>) -> Option<u64>
    requires rest { AtRest (seat_state seat.old) }
    ensures rest { AtRest (seat_state seat.new) }
    ensures same { IsSameSeat seat.old seat.new }
    ensures place { (seat_view seat.new).place ≡ (seat_view seat.old).place }
{
    let least = lift(seat);
    let Turn::Taken(shelf) = take_turn(seat) else {
        return None;
    };
    let mut shelf = shelf;
    let sealed = seal_upto(&mut shelf, least);
    give_turn(seat, shelf);
    sealed
}
