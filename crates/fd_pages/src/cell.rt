use fd_lists::{Bytes, Items};

/// How many rows a data page has at most, each of them one cell. All pages of a chunk but its last
/// have as many.
pub const MAX_ROWS: usize = 1000;

/// What the cells of a column are: the physical types INT64 and BYTE_ARRAY of Apache Parquet.
#[derive(Clone, Copy, Debug, PartialEq, Eq)]
pub enum CellKind {
    Whole,
    Bytes,
}

/// The value of one row in a column.
#[derive(Debug, Drop)]
pub enum Cell {
    /// No value, which only an optional column has.
    Absent,
    Whole(i64),
    Bytes(Bytes),
}

/// Cells, one a row, in the order of the rows.
pub type CellList = Items<Cell>;

/// The cells of a column. Where it is required, none is absent.
#[derive(Debug, Drop)]
pub struct Cells {
    pub kind: CellKind,
    pub required: bool,
    pub cells: CellList,
}
