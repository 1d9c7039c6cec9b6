//! Limits of a shared table.

/// The most seats of a table. A turn looks at the lane of each seat, and a scan at each pin, one by
/// one. So few seats also keep the numbers that are drawn below 2^63, whatever the seats do.
pub const MOST_SEATS: u32 = 64;
