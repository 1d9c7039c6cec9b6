ghost use Rattle.std.specs.Prelude.{◌≡◌, ◌<◌, ◌∷◌, [], false};
ghost use Rattle.fd_rule.specs.Passes.{view_of};

use crate::view::SeatView;
use atomic_table::Badge;

/// A seat that nobody sits on: it keeps the seat's number and all that the seat knows, and names
/// no type of part. It serves only the base that made it.
#[derive(Drop)]
pub struct Pass {
    pub(crate) badge: Badge<SeatView>,
    pub(crate) number: u32,
    pub(crate) next: u32,
    pub(crate) splits: bool,
    pub(crate) scan: u32,
    pub(crate) count: u32,
    ghost one: { badge.views ≡ view_of badge.views ∷ [] },
    ghost numbered: { (view_of badge.views).place.number ≡ number },
    ghost following: { (view_of badge.views).place.next ≡ next },
    ghost splitting: { (view_of badge.views).place.splits ≡ splits },
    ghost scanning: { (view_of badge.views).pinning.next ≡ scan },
    ghost here: { (view_of badge.views).place.spent ≡ false },
    ghost inside: { number < count },
}

impl Pass {
    ghost use Rattle.fd_rule.specs.Seats.{pass_view};

    /// The number of the seat.
    pub fn number(&self) -> u32
        ensures { result ≡ (pass_view self.now).place.number }
    {
        self.number
    }
}
