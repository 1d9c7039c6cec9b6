//! One file for each kind of step.

mod announcement;
mod batch_landing;
mod drawn_load;
mod floor_raise;
mod lane_clearance;
mod lane_load;
mod mark_load;
mod mark_raise;
mod number_draw;
mod pin_arrival;
mod pin_departure;
mod pin_scan;
mod pin_settlement;
mod seat_join;
mod seat_split;
mod synced_load;
mod turn_return;
mod turn_try;

pub use announcement::announce;
pub use batch_landing::land;
pub use drawn_load::load_drawn;
pub use floor_raise::raise_floor;
pub use lane_clearance::clear_lane;
pub use lane_load::{lane_part, load_lane};
pub use mark_load::load_mark;
pub use mark_raise::raise_mark;
pub use number_draw::draw;
pub use pin_arrival::arrive;
pub use pin_departure::leave;
pub use pin_scan::scan_pin;
pub use pin_settlement::settle;
pub use seat_join::join;
pub use seat_split::split;
pub use synced_load::load_synced;
pub use turn_return::give_turn;
pub use turn_try::take_turn;
