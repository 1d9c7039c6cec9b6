use fd_kinds::{Labels, Text};

/// What the rows of a series have in common.
#[derive(Debug, Drop)]
pub struct Series {
    /// The value of the label `__name__`.
    pub name: Text,
    /// The other labels.
    pub labels: Labels,
}
