//! When a block takes no further number.

/// It has at least so many rows ..
pub const FULL_ROWS: u64 = 65_536;

/// .. or its rows, by their spelling in the log, have at least so many bytes.
pub const FULL_BYTES: u64 = 134_217_728;
