//! Limits of requests and of a session; their reasons stand in `docs/FORMATS.md`.

/// The most bytes that a head has, with the line ends before it.
pub const LONGEST_FRONT: usize = 16_384;

/// The most headers that a head has.
pub const MOST_HEADERS: usize = 64;

/// The most bytes that one reading of the source takes.
pub const LONGEST_PIECE: usize = 4_096;

/// The most bytes that are read and not yet used: a head that lacks one byte, and a piece.
pub const LONGEST_INBOX: usize = 20_479;

/// The most bytes that a body has.
pub const LONGEST_BODY: u64 = 16_777_216;

/// The most requests that one session takes.
pub const MOST_REQUESTS: u32 = 100_000;
