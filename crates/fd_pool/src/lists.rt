//! The parts up to a pin, and those that may be compacted.
ghost use Rattle.std.specs.Prelude.{◌≡◌, [], ◌∷◌, map, IfOk};
ghost use Rattle.fd_pool.specs.Kept.{IsFree};
ghost use Rattle.fd_pool.specs.Lists.{IsListed, IsRun};
ghost use Rattle.fd_pool.specs.Turns.{InHand, Turned, IsTaken};
ghost use Rattle.fd_rule.specs.Kinds.TurnReturn.{given_of, with_given};
ghost use Rattle.fd_rule.specs.Lists.{AllUpto, In};
ghost use Rattle.fd_rule.specs.Seats.{IsSameSeat, seat_state, seat_view};
ghost use Rattle.fd_rule.specs.View.{Given, settled};
ghost use Rattle.fd_shelf.specs.Histories.{hist};
ghost use Rattle.fd_shelf.specs.Steps.{level0, loose_upto, parts_upto, placed_in};

use crate::turns::{give_up, wait_for_turn};
use fd_kinds::{Held, NoMemory};
use fd_pins::{Limit, Pin};
use fd_rule::Seat;
use fd_shelf::{Picked, Shelf};
use std::sync::Wait;

/// Shares of the parts up to the pin; the turn is given back.
fn list_taken<P: Held>(seat: &mut Seat<P>, shelf: Shelf<P>, w: u64) -> Result<Picked<P>, NoMemory>
    requires taken { IsTaken w shelf (seat_state seat.old) }
    ensures placed { IfOk result (λ picked.
        map (λ i. placed_in i.block (P.means i.part)) picked ≡ parts_upto shelf.book w) }
    ensures parts { IfOk result (λ picked.
        IsListed
        (given_of shelf.book (seat_view seat.old))
        w
        (hist shelf.book shelf.mark)
        (map (λ i. P.means i.part) picked)) }
    ensures me { seat_state seat.new ≡ (with_given shelf.book (seat_view seat.old), []) }
    ensures same { IsSameSeat seat.old seat.new }
{
    shelf.is_in_order();
    shelf.history_laws();
    let picked = shelf.parts_upto(w);
    give_up(seat, shelf);
    picked
}

/// Shares of the parts up to the pin: together they have exactly the rows of the first batches up
/// to it, each number's as its batch. It waits for the turn.
pub fn list<R: Wait, P: Held>(rt: &R, seat: &mut Seat<P>, pin: &Pin) -> Result<Picked<P>, NoMemory>
    requires free { IsFree (seat_state seat.old) }
    requires pinned { (seat_view seat.old).pinning.state ≡ settled pin.now.w }
    requires loaded { In pin.now.w (seat_view seat.old).seen.marks }
    ensures turned { (g : Given) × Turned (seat_view seat.old) g (seat_view seat.new) }
    ensures placed { IfOk result (λ picked.
        (g : Given)
        × Turned (seat_view seat.old) g (seat_view seat.new)
        × (map (λ i. placed_in i.block (P.means i.part)) picked ≡ parts_upto g.book pin.now.w)) }
    ensures parts { IfOk result (λ picked.
        (g : Given)
        × Turned (seat_view seat.old) g (seat_view seat.new)
        × IsListed
        g
        pin.now.w
        (seat_view seat.new).seen.history
        (map (λ i. P.means i.part) picked)) }
    ensures free { IsFree (seat_state seat.new) }
    ensures same { IsSameSeat seat.old seat.new }
{
    let shelf = wait_for_turn(rt, seat);
    list_taken(seat, shelf, pin.w)
}

/// Shares of the loose parts of the active block up to the limit; the turn is given back.
fn run_taken<P: Held>(seat: &mut Seat<P>, shelf: Shelf<P>, l: u64) -> Result<Picked<P>, NoMemory>
    requires hand { InHand shelf (seat_state seat.old) }
    ensures placed { IfOk result (λ picked.
        map (λ i. placed_in i.block (P.means i.part)) picked ≡ level0 shelf.book l) }
    ensures parts { IfOk result (λ picked.
        map (λ i. P.means i.part) picked ≡ loose_upto shelf.book l) }
    ensures run { IsRun
        (given_of shelf.book (seat_view seat.old))
        l
        (hist shelf.book shelf.mark) }
    ensures me { seat_state seat.new ≡ (with_given shelf.book (seat_view seat.old), []) }
    ensures same { IsSameSeat seat.old seat.new }
{
    shelf.is_in_order();
    shelf.history_laws();
    shelf.level0_laws(l);
    let picked = shelf.level0(l);
    give_up(seat, shelf);
    picked
}

/// Shares of the loose parts of the active block up to the limit. One part in their place, of their
/// range and with their rows, has the rows that the seat has seen there. It waits for the turn.
pub fn run_upto<R: Wait, P: Held>(
    rt: &R,
    seat: &mut Seat<P>,
    limit: &Limit,
) -> Result<Picked<P>, NoMemory>
    requires free { IsFree (seat_state seat.old) }
    ensures turned { (g : Given) × Turned (seat_view seat.old) g (seat_view seat.new) }
    ensures parts { IfOk result (λ picked.
        (g : Given)
        × Turned (seat_view seat.old) g (seat_view seat.new)
        × (map (λ i. placed_in i.block (P.means i.part)) picked ≡ level0 g.book limit.now.l)
        × (map (λ i. P.means i.part) picked ≡ loose_upto g.book limit.now.l)
        × IsRun g limit.now.l (seat_view seat.new).seen.history
        × AllUpto g.mark (seat_view seat.old).seen.marks) }
    ensures free { IsFree (seat_state seat.new) }
    ensures same { IsSameSeat seat.old seat.new }
{
    let shelf = wait_for_turn(rt, seat);
    run_taken(seat, shelf, limit.l)
}
