//! Loads of one word, and the one report.
ghost use Rattle.std.specs.Prelude.{◌≡◌};
ghost use Rattle.fd_rule.specs.Kinds.Announcement.{MayAnnounce, with_announced};
ghost use Rattle.fd_rule.specs.Kinds.DrawnLoad.{LoadedDrawn, with_drawn};
ghost use Rattle.fd_rule.specs.Kinds.MarkLoad.{Loaded, with_mark};
ghost use Rattle.fd_rule.specs.Kinds.SyncedLoad.{LoadedSynced, with_synced};
ghost use Rattle.fd_rule.specs.Seats.{IsSameSeat, seat_slots, seat_state, seat_view};

use fd_kinds::Held;
use fd_rule::{Seat, load_drawn, load_mark, load_synced};

/// The mark: each batch up to it is in the book. It takes no memory.
pub fn watermark<P: Held>(seat: &mut Seat<P>) -> u64
    ensures me { seat_state seat.new
        ≡ (with_mark result (seat_view seat.old), seat_slots seat.old) }
    ensures loaded { Loaded result (seat_view seat.old) }
    ensures same { IsSameSeat seat.old seat.new }
{
    load_mark(seat, false)
}

/// The greatest number reported synced. It takes no memory.
pub fn synced<P: Held>(seat: &mut Seat<P>) -> u64
    ensures me { seat_state seat.new
        ≡ (with_synced result (seat_view seat.old), seat_slots seat.old) }
    ensures loaded { LoadedSynced result (seat_view seat.old) }
    ensures same { IsSameSeat seat.old seat.new }
{
    load_synced(seat)
}

/// The greatest number drawn. It takes no memory.
pub fn drawn<P: Held>(seat: &mut Seat<P>) -> u64
    ensures me { seat_state seat.new
        ≡ (with_drawn result (seat_view seat.old), seat_slots seat.old) }
    ensures loaded { LoadedDrawn result (seat_view seat.old) }
    ensures same { IsSameSeat seat.old seat.new }
{
    load_drawn(seat)
}

/// Seat 0 reports all numbers up to `n` as synced. It takes no memory.
pub fn announce<P: Held>(seat: &mut Seat<P>, n: u64)
    requires may { MayAnnounce n (seat_view seat.old) }
    ensures me { seat_state seat.new
        ≡ (with_announced n (seat_view seat.old), seat_slots seat.old) }
    ensures same { IsSameSeat seat.old seat.new }
{
    fd_rule::announce(seat, n);
}
