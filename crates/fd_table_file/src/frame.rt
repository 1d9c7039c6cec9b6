/// The bytes that each file begins and ends with.
pub const MAGIC: &[u8; 4] = b"PAR1";
