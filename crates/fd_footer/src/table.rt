use crate::{Columns, Pages};

/// What a footer that was read tells of its file, without the places of the pages.
#[derive(Debug, Drop)]
pub struct FooterTable {
    pub pages: Pages,
    /// The range in which the numbers of the rows lie, none where it is 2^64 or more.
    pub lo: Option<u64>,
    pub hi: Option<u64>,
    /// How many rows there are; a footer may claim fewer than none.
    pub rows: i64,
    pub columns: Columns,
}
