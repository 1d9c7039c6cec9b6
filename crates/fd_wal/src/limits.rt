//! The limits of a log.

/// The most bytes of the payload of a frame that is written. A batch of the most bytes fits, and
/// many small ones share a frame. Frames with longer payloads are read.
pub const MOST_PAYLOAD_BYTES: u64 = 268_435_456;

/// The most bytes of the rows of a log, by their spelling. So each length in the file of a block
/// fits its 32 bits.
pub const MOST_LOG_BYTES: u64 = 536_870_911;
