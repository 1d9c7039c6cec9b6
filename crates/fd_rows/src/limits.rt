/// The bytes that the name or the value of a label of a series may have. A label stands in each row
/// of its series and names a column, so it is short.
pub const MOST_LABEL_BYTES: usize = 4_096;

/// The bytes that the rows of a write body may have, counted as `fd_kinds::row_bytes` does: 128
/// MiB. It bounds the memory of a write, of its batch and of the part that is made of it.
pub const MOST_BODY_ROW_BYTES: u64 = 134_217_728;
