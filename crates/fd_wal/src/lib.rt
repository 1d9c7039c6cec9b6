//! The log of a block: the frames in which batches with their numbers are kept on a disk. Numbers
//! stand with their lowest byte first.
//!
//! ```text
//! log          frames, and behind them a closed gate; or no byte at all
//!   gate         1 byte: open where it is 1 and not the last byte of the file
//!   length       4 bytes, of the payload
//!   digest       32 bytes, the SHA-256 of the payload (FIPS 180-4)
//!   payload
//!     transactions   01 01, the first number (8 bytes), the count of batches (4 bytes, not 0),
//!                    and each batch: the count of its rows (4 bytes), and the rows in the row order
//!     rotation       01 02, the greatest number so far (8 bytes): the last frame of a log that
//!                    another one follows
//!
//! row          five texts: name, sample type, sample unit, period type, period unit
//!              labels, timestamp, stack, labels of the sample, period, duration, value
//!   text         4 bytes of length, and the bytes, in UTF-8
//!   labels       4 bytes of count, and each name and value as a text; the names rise, and no
//!                value is empty
//!   stack        4 bytes of count, and each frame as a text, the leaf first
//!   number       8 bytes, in two's complement
//! ```
//!
//! A frame is written without its gate and with a closed gate behind it, and then its own gate is
//! opened: so what stands behind a closed gate is no part of the log, whatever it is. A frame
//! behind an open gate that is cut or changed, or may not stand there, is damaged.
#![tactic(auto)]

mod batch_writer;
mod cursor;
mod fault;
mod frame_reader;
mod frame_writer;
mod laws;
pub mod limits;
mod log_reader;
mod row_reader;
mod row_writer;
mod spelling;
mod transactions_reader;

pub use batch_writer::{batch_bytes, transaction};
pub use fault::ReplayFault;
pub use frame_writer::{rotation, spelled_transactions, transactions};
pub use laws::{log_growth, log_or_damage, one_damage, one_log};
pub use log_reader::{Replayed, replay};
