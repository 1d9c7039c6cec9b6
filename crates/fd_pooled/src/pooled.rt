ghost use Rattle.std.specs.Prelude.{◌≡◌};
ghost use Rattle.fd_pooled.specs.Pooling.{IsResting};
ghost use Rattle.fd_rule.specs.Seats.{seat_count, seat_state, seat_table, seat_view};

use crate::reads::read_query;
use crate::stands::stand_of;
use crate::writes::write_batch;
use fd_kinds::{Batch, Query, ReadRefusal, Seen, Stand, Store, WriteRefusal};
use fd_part::Part;
use fd_rule::Seat;
use std::marker::Model;
use std::sync::Wait;

/// One seat of a pool as a store, which others share through their own seats. It waits by the
/// runtime that it keeps. Contracts see it as what the seat knows.
#[derive(Drop)]
pub struct Pooled<'a, R: Wait> {
    rt: &'a R,
    seat: Seat<'a, Part>,
}

impl<'a, R: Wait> Model for Pooled<'a, R> {
    ghost use Rattle.fd_pooled.specs.Pooling.{IsResting, PooledView};
    ghost use Rattle.fd_rule.specs.Seats.{seat_count, seat_state, seat_table, seat_view};

    ghost Value = { PooledView };

    ghost view = { λ s. record {
      table = seat_table s.seat;
      seats = seat_count s.seat;
      view = seat_view s.seat;
    } };

    ghost invariant = { λ s. IsResting (seat_state s.seat) };
}

impl<'a, R: Wait> Pooled<'a, R> {
    /// A store over a seat that has no turn, no pin and nothing in flight. It takes no memory.
    pub fn new(rt: &'a R, seat: Seat<'a, Part>) -> Pooled<'a, R>
        requires rest { IsResting (seat_state seat) }
        ensures table { result.table ≡ seat_table seat.entry }
        ensures seats { result.seats ≡ seat_count seat.entry }
        ensures view { result.view ≡ seat_view seat.entry }
    {
        Pooled { rt, seat }
    }

    /// The seat of the store, which again has no turn, no pin and nothing in flight. It takes no
    /// memory.
    pub fn close(self) -> Seat<'a, Part>
        ensures rest { IsResting (seat_state result) }
        ensures table { seat_table result ≡ self.entry.table }
        ensures seats { seat_count result ≡ self.entry.seats }
        ensures view { seat_view result ≡ self.entry.view }
    {
        let Pooled { rt: _, seat } = self;
        seat
    }
}

impl<'a, R: Wait> Store for Pooled<'a, R> {
    ghost use Rattle.std.specs.Prelude.{false};
    ghost use Rattle.fd_pooled.specs.Calls.{PooledReads, PooledStands, PooledWrites};
    ghost use Rattle.fd_pooled.specs.Pooling.{seen_by};
    ghost use Rattle.fd_pooled.specs.StoreLaws.{pooled_read, pooled_stand, pooled_write};

    ghost sees = { seen_by };

    ghost write_law = { pooled_write };

    ghost read_law = { pooled_read };

    ghost stand_law = { pooled_stand };

    ghost write_gives = { PooledWrites };

    ghost read_gives = { PooledReads };

    ghost stand_gives = { PooledStands };

    ghost faults = { λ _. 0 };

    ghost has_failed = { λ _. false };

    /// Makes the part of the batch, waits until the own lane is empty, draws a number, lands the
    /// part in the lane, and sweeps once. It meets no disk fault.
    fn write(&mut self, batch: Batch) -> Result<u64, WriteRefusal> {
        write_batch(self.rt, &mut self.seat, batch)
    }

    /// Sweeps until the mark reaches `after`, pins the mark, lists the parts up to it, gives up the
    /// pin, and answers from the parts.
    fn read(&mut self, after: u64, query: &Query) -> Result<Seen, ReadRefusal> {
        read_query(self.rt, &mut self.seat, after, query)
    }

    fn stand(&mut self) -> Stand {
        stand_of(&mut self.seat)
    }
}
