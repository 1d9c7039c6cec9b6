//! The end of a pool, from the passes of all its seats.
ghost use Rattle.std.specs.Prelude.{◌≡◌, ◌<◌, ℕ, true, [], IfOk, IfErr, OnOk, MatchOption};
ghost use Rattle.fd_pool.specs.Finishes.{AllKept, IsFinished, IsRested, IsUnfinished};
ghost use Rattle.fd_pool.specs.Finishes.{absent_of, has_number};
ghost use Rattle.fd_pool.specs.Gathers.{Gathers, IsEnded, IsReady};
ghost use Rattle.fd_pool.specs.Kept.{Kept};
ghost use Rattle.fd_pool.specs.Pools.{ArePassesOf, IsPassAt, pool_seats, pool_shelf, views_of};
ghost use Rattle.fd_rule.specs.Kinds.SeatJoin.{join_of};
ghost use Rattle.fd_rule.specs.Rule.{seated};
ghost use Rattle.fd_rule.specs.Seats.{base_seats, base_shelf, base_table, pass_seats, pass_table};
ghost use Rattle.fd_rule.specs.Seats.{pass_view, seat_slots, seat_state, seat_table, seat_view};
ghost use Rattle.fd_shelf.specs.Books.{Each};

use crate::lanes::ready;
use crate::pool::{Passes, Pool};
use crate::room::put_first;
use fd_kinds::Held;
use fd_lists::Items;
use fd_rule::{Base, Pass, Seat, join};
use fd_shelf::{Shelf, book_laws};
use std::sync::Wait;

/// Why a pool was not finished. It may be finished later.
#[derive(Drop)]
pub enum NotFinished<P: Held> {
    /// So many seats have no pass in the list.
    Missing {
        pool: Pool<P>,
        passes: Passes,
        absent: u32,
    },
    /// Memory was wanting, before any two seats were joined.
    NoMemory {
        pool: Pool<P>,
        passes: Passes,
    },
}

/// Whether one of the passes has the number.
fn has_number(passes: &[Pass], number: u32) -> bool
    ensures { result ≡ has_number number (views_of passes.now) }
{
    for pass in passes {
        if pass.number() == number {
            return true;
        }
    }
    false
}

/// How many of the first seats have no pass.
fn absent(passes: &[Pass], seats: u32) -> u32
    ensures { result ≡ absent_of seats (views_of passes.now) }
{
    let mut absent = 0;
    for at in 0..seats {
        if !has_number(passes, at) {
            absent += 1;
        }
    }
    absent
}

/// The pass of a seat whose lane is known to be empty, and whether there was memory for that.
fn ready_pass<R: Wait, P: Held>(rt: &R, base: &Base<P>, pass: Pass) -> (Pass, bool)
    requires base { IsPassAt (base_table base.now) (base_seats base.now) pass }
    requires rested { IsRested (pass_view pass) }
    ensures base { IsPassAt (base_table base.now) (base_seats base.now) result.0 }
    ensures kept { Kept (pass_view pass) (pass_view result.0) }
    ensures rested { IsRested (pass_view result.0) }
    ensures ready { result.1 ≡ true → IsReady (pass_view result.0) }
{
    let mut seat = Seat::enter(base, pass);
    let is_ready = ready(rt, &mut seat).is_ok();
    (seat.leave(), is_ready)
}

/// The passes of seats whose lanes are known to be empty, and whether there was memory for that.
fn ready_all<R: Wait, P: Held>(rt: &R, base: &Base<P>, passes: Passes) -> (Passes, bool)
    requires base { Each (IsPassAt (base_table base.now) (base_seats base.now)) passes }
    requires rested { Each IsRested (views_of passes) }
    ensures base { Each (IsPassAt (base_table base.now) (base_seats base.now)) result.0 }
    ensures kept { AllKept (views_of passes) (views_of result.0) }
    ensures rested { Each IsRested (views_of result.0) }
    ensures ready { result.1 ≡ true → Each IsReady (views_of result.0) }
{
    let mut done = match Vec::with_capacity(passes.allocator(), passes.len()) {
        Ok(done) => done,
        Err(_) => return (passes, false),
    };
    let mut left = passes;
    let mut enough = true;
    while let Some(pass) = left.pop() {
        let (same, is_ready) = ready_pass(rt, base, pass);
        enough = enough && is_ready;
        put_first(&mut done, same);
    }
    (Items::from_vec(done), enough)
}

/// Takes one more pass in.
fn take_in<P: Held>(seat: &mut Seat<P>, base: &Base<P>, pass: Pass)
    requires base { IsPassAt (base_table base.now) (base_seats base.now) pass }
    requires seat { seat_table seat.old ≡ base_table base.now }
    requires ready { IsReady (pass_view pass) }
    ensures me { seat_state seat.new
        ≡ (join_of (seat_view seat.old) (pass_view pass), seat_slots seat.old) }
    ensures base { seat_table seat.new ≡ seat_table seat.old }
{
    let other = Seat::enter(base, pass);
    join(seat, other);
}

/// One pass that has what all have.
fn join_all<P: Held>(base: &Base<P>, passes: Passes) -> Option<Pass>
    requires base { Each (IsPassAt (base_table base.now) (base_seats base.now)) passes }
    requires ready { Each IsReady (views_of passes) }
    ensures { MatchOption result
        (passes ≡ [])
        (λ all.
        Gathers (views_of passes) (pass_view all)
        × (pass_table all ≡ base_table base.now)) }
{
    let mut passes = passes;
    let first = passes.pop()?;
    let mut seat = Seat::enter(base, first);
    while let Some(pass) = passes.pop() {
        take_in(&mut seat, base, pass);
    }
    Some(seat.leave())
}

/// The shelf with every drawn batch in it, where one pass has the numbers of all seats.
fn end<P: Held>(base: Base<P>, all: Pass) -> Shelf<P>
    requires base { pass_table all ≡ base_table base }
    requires seats { (k : ℕ) → k < base_seats base → 0 < seated k (pass_view all) }
    requires ready { IsReady (pass_view all) }
    ensures { IsEnded (base_shelf base) (pass_view all) result }
{
    let mut shelf = base.close(all);
    shelf.advance();
    shelf.is_in_order();
    book_laws();
    shelf
}

impl<P: Held> Pool<P> {
    /// Ends the pool, where the list has the passes of all its seats: the shelf has every batch that
    /// was drawn and landed. It waits until each lane is empty.
    pub fn finish<R: Wait>(self, rt: &R, passes: Passes) -> Result<Shelf<P>, NotFinished<P>>
        requires passes { ArePassesOf self passes }
        requires rested { Each IsRested (views_of passes) }
        ensures ok { IfOk result (λ shelf.
            IsFinished (pool_shelf self) (views_of passes) shelf) }
        ensures all { OnOk result (absent_of (pool_seats self) (views_of passes) ≡ 0) }
        ensures err { IfErr result (λ why. IsUnfinished self passes why) }
    {
        let absent = absent(passes.as_slice(), self.base.count());
        if absent > 0 {
            return Err(NotFinished::Missing {
                pool: self,
                passes,
                absent,
            });
        }
        let (ready, enough) = ready_all(rt, &self.base, passes);
        if !enough {
            return Err(NotFinished::NoMemory {
                pool: self,
                passes: ready,
            });
        }
        let Pool { base } = self;
        match join_all(&base, ready) {
            Some(all) => Ok(end(base, all)),
            None => unreachable!(),
        }
    }
}
