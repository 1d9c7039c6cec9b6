/// The bytes that a text of the string table may have. Every text is copied whole into a row, so a
/// longer one is refused and not cut short.
pub const MOST_TEXT_BYTES: usize = 1_048_576;

/// The bytes that the frames of a sample may have, each frame counted with four bytes more. A few
/// bytes of a profile may name long frames many times over, so this bounds what is built of them.
pub const MOST_STACK_BYTES: u64 = 1_048_576;
