/// What stands before a run.
#[derive(Clone, Copy)]
pub(crate) enum Before {
    /// No run.
    Nothing,
    /// A repeated run of this value.
    Repeated(u32),
    /// A packed run.
    Packed,
}
