use fd_lists::{Items, Text};

/// What a column's cells hold (Parquet's physical types INT64 and BYTE_ARRAY).
#[derive(Clone, Copy, Debug, PartialEq, Eq)]
pub enum ColumnType {
    Int64,
    ByteArray,
}

/// How the pages of a file's BYTE_ARRAY columns hold their texts.
#[derive(Clone, Copy, Debug, PartialEq, Eq)]
pub enum Pages {
    /// Each text where its cell stands.
    Plain,
    /// A page of the distinct texts first, and an index into it for each cell.
    Dict,
}

/// A column. A cell of one that isn't required may be absent.
#[derive(Debug, Drop)]
pub struct Column {
    pub name: Text,
    pub column_type: ColumnType,
    pub required: bool,
}

pub type Columns = Items<Column>;

/// Where a column's pages stand in the file, in bytes from its start.
#[derive(Clone, Copy, Debug, PartialEq, Eq)]
pub struct Chunk {
    /// The place of the first page, which is the dictionary's where there is one.
    pub place: u64,
    /// How many bytes the pages have, with their headers.
    pub size: u64,
    /// The place of the first data page.
    pub data_page: u64,
}

pub type Chunks = Items<Chunk>;

/// What the footer of a file tells.
#[derive(Debug, Drop)]
pub struct Footer {
    pub pages: Pages,
    /// The range in which the numbers of the rows lie.
    pub lo: u64,
    pub hi: u64,
    /// How many rows there are.
    pub rows: u64,
    pub columns: Columns,
    /// A chunk for each column, and none where there are no rows.
    pub chunks: Chunks,
}
