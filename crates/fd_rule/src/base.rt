ghost use Rattle.std.specs.Prelude.{◌≡◌, ◌≤◌, ◌<◌, ◌+◌, ◌*◌, ℕ};
ghost use Rattle.fd_rule.specs.declared.limits.TheConstants.{MOST_SEATS};

use crate::slot::SlotValue;
use crate::view::SeatView;
use atomic_table::{Table, TableRule};
use fd_kinds::Held;
use fd_shelf::Shelf;
use std::alloc::Global;
use std::snapshot::Snapshot;

/// What a table is made with: the shelf, the number reported synced, and how many seats it has.
#[derive(Drop)]
pub struct Opening<P: Held> {
    pub shelf: Snapshot<Shelf<P>>,
    pub synced: u64,
    pub seats: u64,
}

/// The rule of the table, which holds between any two steps of its seats.
pub struct BaseRule;

impl<P: Held> TableRule<SlotValue<P>, SeatView, Opening<P>> for BaseRule {
    ghost use Rattle.fd_rule.specs.Rule.{Ruled};
    ghost use Rattle.fd_rule.specs.View.{first};

    ghost holds = { λ k. Ruled P.means k.shelf.value k.seats };

    ghost first = { λ k. first k.shelf.value k.synced };
}

pub type Board<P> = Table<SlotValue<P>, SeatView, Opening<P>, BaseRule, Global>;

/// The table that the seats of a store share. Seats borrow it; nobody owns the shelf but whoever
/// holds the turn.
#[derive(Drop)]
pub struct Base<P: Held> {
    pub(crate) board: Board<P>,
    pub(crate) count: u32,
    ghost counted: { board.shared.key.seats ≡ count },
    ghost some: { 0 < count },
    ghost few: { board.shared.key.seats ≤ MOST_SEATS },
    ghost wide: { board.shared.table_id.words ≡ 2 * board.shared.key.seats + 5 },
    ghost deep: { board.shared.table_id.slots ≡ board.shared.key.seats + 1 },
}

impl<P: Held> Base<P> {
    ghost use Rattle.fd_rule.specs.Seats.{base_seats};

    /// How many seats the table has.
    pub fn count(&self) -> u32
        ensures count { result ≡ base_seats self.now }
        ensures some { 0 < result }
    {
        self.count
    }
}
