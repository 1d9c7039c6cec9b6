//! The shared table of a store that many threads use: drawn numbers, lanes, the turn, the mark and
//! the pins, as words that change in single atomic steps, under one rule. One call stands for each
//! kind of step; it is one step on one word, takes no memory and never waits.
//!
//! ```text
//! word 0      the greatest number drawn         slot 0      the shelf
//! word 1      the mark                          slot k + 1  the part that landed in lane k
//! word 2      the turn: 0, or 1 + its holder
//! word 3      the greatest number reported synced
//! word 4      the floor of all pins
//! word 2k + 5 the lane of seat k: 0, or the number of its landed batch
//! word 2k + 6 the pin of seat k: 2^64 - 1 without one, 0 on arrival, or the watermark
//! ```
#![tactic(auto)]

mod base;
mod ending;
mod kinds;
mod laws;
pub mod limits;
mod made;
mod opening;
mod pass;
mod plays;
mod seat;
mod slot;
mod turn;
mod view;

pub use base::{Base, BaseRule, Board, Opening};
pub use kinds::{
    announce, arrive, clear_lane, draw, give_turn, join, land, lane_part, leave, load_drawn,
    load_lane, load_mark, load_synced, raise_floor, raise_mark, scan_pin, settle, split, take_turn,
};
pub use laws::{event_laws, opening_laws};
pub use made::{Made, NotMade};
pub use pass::Pass;
pub use seat::Seat;
pub use slot::SlotValue;
pub use turn::Turn;
pub use view::SeatView;
