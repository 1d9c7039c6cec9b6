//! What is left when a table ends.
ghost use Rattle.std.specs.Prelude.{◌≡◌, ◌<◌, ℕ, true, false, slice_index_or};
ghost use Rattle.std.specs.Slots.Ownership.{Filled};
ghost use Rattle.std.specs.Slots.{slots_filled, slots_len};
ghost use Rattle.fd_rule.specs.Closing.{IsClosed};
ghost use Rattle.fd_rule.specs.Rule.{seated};
ghost use Rattle.fd_rule.specs.Seats.{base_seats, base_shelf, base_table};
ghost use Rattle.fd_rule.specs.Seats.{pass_table, pass_view};
ghost use Rattle.fd_rule.specs.Slots.{IsHome};
ghost use Rattle.fd_rule.specs.declared.slot.SlotValue.TheVariants.{Home};

use crate::base::Base;
use crate::pass::Pass;
use crate::slot::SlotValue;
use atomic_table::Closed;
use fd_kinds::Held;
use fd_shelf::Shelf;
use std::alloc::Global;

pub(crate) fn home_shelf<P: Held>(value: SlotValue<P>) -> Shelf<P>
    requires { IsHome value }
    ensures { value ≡ Home result }
{
    match value {
        SlotValue::Home(shelf) => shelf,
        _ => unreachable!(),
    }
}

/// Lets go of what lies in the slots behind the first, and of the memory.
pub(crate) fn dispose<P: Held>(closed: Closed<SlotValue<P>, Global>)
    requires filled { Filled (slots_filled closed.slots) 1 (slots_len closed.slots) }
    requires first { slice_index_or (slots_filled closed.slots) 0 false ≡ false }
{
    let mut closed = closed;
    let mut at = 1;
    while at < closed.slot_count() {
        drop(closed.take(at));
        at += 1;
    }
    closed.free();
}

impl<P: Held> Base<P> {
    /// Ends the table, where one pass has the numbers of all seats, has no turn and nothing in
    /// flight, and knows that all their lanes are empty. It takes no memory.
    pub fn close(self, all: Pass) -> Shelf<P>
        requires base { pass_table all ≡ base_table self }
        requires seats { (k : ℕ) → k < base_seats self → 0 < seated k (pass_view all) }
        requires turn { (pass_view all).turn.holds ≡ false }
        requires flight { (pass_view all).draws.flight ≡ 0 }
        requires empty { (pass_view all).draws.empty ≡ true }
        ensures { IsClosed (base_shelf self) (pass_view all) result }
    {
        let Base { board, count: _ } = self;
        let Pass {
            badge,
            number: _,
            next: _,
            splits: _,
            scan: _,
            count: _,
        } = all;
        let mut closed = board.close_with(badge.into_seat());
        let first = closed.take(0);
        dispose(closed);
        home_shelf(first)
    }
}
