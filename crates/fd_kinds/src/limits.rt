//! Limits that several crates keep.

/// The most bytes that the rows of one batch have, by their spelling in the log. A write body's
/// rows have fewer by an eighth, so that what else a batch is spelled with always fits.
pub const MOST_BATCH_BYTES: u64 = 150_994_944;

/// Numbers are drawn while fewer than so many were, so that no count of batches leaves 63 bits.
pub const MOST_NUMBERS: u64 = 1 << 62;

/// So many loose parts of the active block are compacted into one sealed part.
pub const MOST_LOOSE_PARTS: u64 = 16;

/// The rows of a block, by their spelling in the log, have fewer bytes than so many, so that each
/// size in the block's file fits 32 bits.
pub const BLOCK_BYTES_LIMIT: u64 = 1 << 29;
