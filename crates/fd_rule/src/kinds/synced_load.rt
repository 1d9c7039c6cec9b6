ghost use Rattle.std.specs.Prelude.{◌≡◌};
ghost use Rattle.fd_rule.specs.Kinds.SyncedLoad.{LoadedSynced, with_synced};
ghost use Rattle.fd_rule.specs.Seats.{IsSameSeat, seat_slots, seat_state, seat_view};

use crate::plays::SyncedLoad;
use crate::seat::Seat;
use fd_kinds::Held;

/// The greatest number reported synced. It takes no memory.
pub fn load_synced<P: Held>(seat: &mut Seat<P>) -> u64
    ensures me { seat_state seat.new
        ≡ (with_synced result (seat_view seat.old), seat_slots seat.old) }
    ensures loaded { LoadedSynced result (seat_view seat.old) }
    ensures same { IsSameSeat seat.old seat.new }
{
    seat.board.shared.load::<SyncedLoad>(&mut seat.inner, 3)
}
