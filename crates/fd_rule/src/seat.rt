ghost use Rattle.std.specs.Prelude.{◌≡◌, ◌≤◌, ◌<◌, ◌+◌, ◌*◌, false, []};
ghost use Rattle.fd_rule.specs.Passes.{view_of};
ghost use Rattle.fd_rule.specs.declared.limits.TheConstants.{MOST_SEATS};

use crate::base::{Base, Board};
use crate::pass::Pass;
use crate::slot::SlotValue;
use crate::view::SeatView;
use fd_kinds::Held;

/// One thread's seat at a table: it has a number, a lane and a pin, and takes the steps. What it
/// knows and which slots it holds are seen in contracts alone (`specs/Seats`).
#[derive(Drop)]
pub struct Seat<'a, P: Held> {
    pub(crate) board: &'a Board<P>,
    pub(crate) number: u32,
    pub(crate) next: u32,
    pub(crate) splits: bool,
    pub(crate) scan: u32,
    pub(crate) count: u32,
    pub(crate) inner: atomic_table::Seat<SlotValue<P>, SeatView>,
    ghost fits: { inner.table_id ≡ board.now.shared.table_id },
    ghost numbered: { inner.me.0.place.number ≡ number },
    ghost following: { inner.me.0.place.next ≡ next },
    ghost splitting: { inner.me.0.place.splits ≡ splits },
    ghost scanning: { inner.me.0.pinning.next ≡ scan },
    ghost counted: { board.now.shared.key.seats ≡ count },
    ghost few: { board.now.shared.key.seats ≤ MOST_SEATS },
    ghost here: { inner.me.0.place.spent ≡ false },
    ghost wide: { board.now.shared.table_id.words ≡ 2 * board.now.shared.key.seats + 5 },
    ghost deep: { board.now.shared.table_id.slots ≡ board.now.shared.key.seats + 1 },
    ghost inside: { number < board.now.shared.key.seats },
}

impl<'a, P: Held> Seat<'a, P> {
    ghost use Rattle.fd_rule.specs.Seats.{base_seats, base_table, pass_seats, pass_table};
    ghost use Rattle.fd_rule.specs.Seats.{pass_view, seat_count, seat_number, seat_slots};
    ghost use Rattle.fd_rule.specs.Seats.{seat_state, seat_table, seat_view};

    /// Sits down with a pass, which serves only the base that made it.
    pub fn enter(base: &'a Base<P>, pass: Pass) -> Seat<'a, P>
        requires base { pass_table pass ≡ base_table base.now }
        requires count { pass_seats pass ≡ base_seats base.now }
        ensures me { seat_state result ≡ (pass_view pass, []) }
        ensures base { seat_table result ≡ base_table base.now }
        ensures seats { seat_count result ≡ base_seats base.now }
    {
        let Pass {
            badge,
            number,
            next,
            splits,
            scan,
            count,
        } = pass;
        Seat {
            board: &base.board,
            number,
            next,
            splits,
            scan,
            count,
            inner: badge.into_seat(),
        }
    }

    /// Gets up, and keeps what the seat knows in its pass. The seat holds no slot: neither the turn
    /// nor a number in flight.
    pub fn leave(self) -> Pass
        requires slots { seat_slots self ≡ [] }
        ensures view { pass_view result ≡ seat_view self.entry }
        ensures base { pass_table result ≡ seat_table self.entry }
        ensures count { pass_seats result ≡ seat_count self.entry }
    {
        let Seat {
            board: _,
            number,
            next,
            splits,
            scan,
            count,
            inner,
        } = self;
        Pass {
            badge: inner.into_badge(),
            number,
            next,
            splits,
            scan,
            count,
        }
    }

    /// The number of the seat.
    pub fn number(&self) -> u32
        ensures number { result ≡ seat_number self.now }
        ensures view { result ≡ (seat_view self.now).place.number }
        ensures below { result < seat_count self.now }
    {
        self.number
    }

    /// How many seats the table has.
    pub fn count(&self) -> u32
        ensures { result ≡ seat_count self.now }
    {
        self.count
    }
}
