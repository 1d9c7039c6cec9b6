//! The ids of the fields that are written (parquet-format, `parquet.thrift`), by their structs.

// FileMetaData
pub(crate) const FILE_VERSION: i16 = 1;

pub(crate) const FILE_SCHEMA: i16 = 2;

pub(crate) const FILE_NUM_ROWS: i16 = 3;

pub(crate) const FILE_ROW_GROUPS: i16 = 4;

pub(crate) const FILE_KEY_VALUE_METADATA: i16 = 5;

pub(crate) const FILE_CREATED_BY: i16 = 6;

// SchemaElement
pub(crate) const ELEMENT_TYPE: i16 = 1;

pub(crate) const ELEMENT_REPETITION_TYPE: i16 = 3;

pub(crate) const ELEMENT_NAME: i16 = 4;

pub(crate) const ELEMENT_NUM_CHILDREN: i16 = 5;

// RowGroup
pub(crate) const GROUP_COLUMNS: i16 = 1;

pub(crate) const GROUP_TOTAL_BYTE_SIZE: i16 = 2;

pub(crate) const GROUP_NUM_ROWS: i16 = 3;

// ColumnChunk
pub(crate) const CHUNK_FILE_OFFSET: i16 = 2;

pub(crate) const CHUNK_META_DATA: i16 = 3;

// ColumnMetaData
pub(crate) const META_TYPE: i16 = 1;

pub(crate) const META_ENCODINGS: i16 = 2;

pub(crate) const META_PATH_IN_SCHEMA: i16 = 3;

pub(crate) const META_CODEC: i16 = 4;

pub(crate) const META_NUM_VALUES: i16 = 5;

pub(crate) const META_TOTAL_UNCOMPRESSED_SIZE: i16 = 6;

pub(crate) const META_TOTAL_COMPRESSED_SIZE: i16 = 7;

pub(crate) const META_DATA_PAGE_OFFSET: i16 = 9;

pub(crate) const META_DICTIONARY_PAGE_OFFSET: i16 = 11;

// KeyValue
pub(crate) const PAIR_KEY: i16 = 1;

pub(crate) const PAIR_VALUE: i16 = 2;
