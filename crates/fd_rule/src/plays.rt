//! What each kind of step tells the seat that takes it.
ghost use Rattle.std.specs.Prelude.{List, [], false, true};
ghost use Rattle.fd_kinds.specs.declared.row.Row.{Row};
ghost use Rattle.fd_rule.specs.Kinds.Announcement.{told as announcement_told};
ghost use Rattle.fd_rule.specs.Kinds.BatchLanding.{told as batch_landing_told};
ghost use Rattle.fd_rule.specs.Kinds.DrawnLoad.{told as drawn_load_told};
ghost use Rattle.fd_rule.specs.Kinds.FloorRaise.{told as floor_raise_told};
ghost use Rattle.fd_rule.specs.Kinds.LaneClearance.{told as lane_clearance_told};
ghost use Rattle.fd_rule.specs.Kinds.LaneLoad.{told as lane_load_told};
ghost use Rattle.fd_rule.specs.Kinds.MarkLoad.{told as mark_load_told};
ghost use Rattle.fd_rule.specs.Kinds.MarkRaise.{told as mark_raise_told};
ghost use Rattle.fd_rule.specs.Kinds.NumberDraw.{told as number_draw_told};
ghost use Rattle.fd_rule.specs.Kinds.PinArrival.{told as pin_arrival_told};
ghost use Rattle.fd_rule.specs.Kinds.PinDeparture.{told as pin_departure_told};
ghost use Rattle.fd_rule.specs.Kinds.PinScan.{told as pin_scan_told};
ghost use Rattle.fd_rule.specs.Kinds.PinSettlement.{told as pin_settlement_told};
ghost use Rattle.fd_rule.specs.Kinds.SeatJoin.{join_of};
ghost use Rattle.fd_rule.specs.Kinds.SeatSplit.{split_left, split_right};
ghost use Rattle.fd_rule.specs.Kinds.SyncedLoad.{told as synced_load_told};
ghost use Rattle.fd_rule.specs.Kinds.TurnReturn.{told as turn_return_told};
ghost use Rattle.fd_rule.specs.Kinds.TurnTry.{told as turn_try_told};
ghost use Rattle.fd_rule.specs.View.{no_view};

use crate::slot::SlotValue;
use crate::view::SeatView;
use atomic_table::{Join, Play, Split};
use fd_kinds::Held;
use std::marker::{Brand, PhantomData};

/// The batch that a number is drawn for, which the caller picks.
pub trait Drawn {
    ghost rows: { List Row };
}

impl Drawn for Brand {
    ghost rows = { [] };
}

pub struct NumberDraw<B> {
    batch: PhantomData<B>,
}

impl<P: Held, B: Drawn> Play<SlotValue<P>, SeatView> for NumberDraw<B> {
    ghost then = { number_draw_told B.rows };
}

pub struct DrawnLoad;

impl<P: Held> Play<SlotValue<P>, SeatView> for DrawnLoad {
    ghost then = { drawn_load_told };
}

pub struct MarkLoad;

impl<P: Held> Play<SlotValue<P>, SeatView> for MarkLoad {
    ghost then = { mark_load_told false };
}

pub struct ScanOpening;

impl<P: Held> Play<SlotValue<P>, SeatView> for ScanOpening {
    ghost then = { mark_load_told true };
}

pub struct SyncedLoad;

impl<P: Held> Play<SlotValue<P>, SeatView> for SyncedLoad {
    ghost then = { synced_load_told };
}

pub struct LaneLoad;

impl<P: Held> Play<SlotValue<P>, SeatView> for LaneLoad {
    ghost then = { lane_load_told P.means };
}

pub struct TurnTry;

impl<P: Held> Play<SlotValue<P>, SeatView> for TurnTry {
    ghost then = { turn_try_told };
}

pub struct MarkRaise;

impl<P: Held> Play<SlotValue<P>, SeatView> for MarkRaise {
    ghost then = { mark_raise_told };
}

pub struct TurnReturn;

impl<P: Held> Play<SlotValue<P>, SeatView> for TurnReturn {
    ghost then = { turn_return_told };
}

pub struct BatchLanding;

impl<P: Held> Play<SlotValue<P>, SeatView> for BatchLanding {
    ghost then = { batch_landing_told };
}

pub struct LaneClearance;

impl<P: Held> Play<SlotValue<P>, SeatView> for LaneClearance {
    ghost then = { lane_clearance_told };
}

pub struct PinArrival;

impl<P: Held> Play<SlotValue<P>, SeatView> for PinArrival {
    ghost then = { pin_arrival_told };
}

pub struct PinSettlement;

impl<P: Held> Play<SlotValue<P>, SeatView> for PinSettlement {
    ghost then = { pin_settlement_told };
}

pub struct PinDeparture;

impl<P: Held> Play<SlotValue<P>, SeatView> for PinDeparture {
    ghost then = { pin_departure_told };
}

pub struct PinScan;

impl<P: Held> Play<SlotValue<P>, SeatView> for PinScan {
    ghost then = { pin_scan_told };
}

pub struct FloorRaise;

impl<P: Held> Play<SlotValue<P>, SeatView> for FloorRaise {
    ghost then = { floor_raise_told };
}

pub struct Announcement;

impl<P: Held> Play<SlotValue<P>, SeatView> for Announcement {
    ghost then = { announcement_told };
}

/// A new seat is split off, or another is joined.
pub struct SeatChange;

impl Split<SeatView> for SeatChange {
    ghost left = { split_left };

    ghost right = { split_right };
}

impl Join<SeatView> for SeatChange {
    ghost both = { join_of };

    ghost spent = { no_view };
}
