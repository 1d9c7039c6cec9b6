ghost use Rattle.std.specs.Prelude.{◌≡◌, ◌<◌, ◌^◌, IfOk, map, length};
ghost use Rattle.std.specs.List.{All};
ghost use Rattle.fd_thrift.specs.View.{view, field_view};
ghost use Rattle.fd_footer.specs.Tables.{has_dictionary as may_have_dictionary, number_value, encodings, content_fields, place_fields, meta_value, chunk_value, chunk_values, total_size as size_of_all, group_value};
ghost use Rattle.fd_footer.specs.Footers.{IsPlaced};

use crate::field_ids::{
    CHUNK_FILE_OFFSET, CHUNK_META_DATA, GROUP_COLUMNS, GROUP_NUM_ROWS, GROUP_TOTAL_BYTE_SIZE,
    META_CODEC, META_DATA_PAGE_OFFSET, META_DICTIONARY_PAGE_OFFSET, META_ENCODINGS,
    META_NUM_VALUES, META_PATH_IN_SCHEMA, META_TOTAL_COMPRESSED_SIZE, META_TOTAL_UNCOMPRESSED_SIZE,
    META_TYPE,
};
use crate::fields::{
    binary_tree, list_field, struct_tree, tree_field, whole32_field, whole64_field,
};
use crate::schema::type_number;
use crate::{Chunk, Column, ColumnType, Pages};
use fd_lists::NoMemory;
use fd_thrift::{Tree, TreeField, TreeFields, Trees};
use std::alloc::Global;

/// Whether the chunk of a column begins with a dictionary, in a file with these pages.
pub fn has_dictionary(pages: Pages, column_type: ColumnType) -> bool
    ensures { result ≡ may_have_dictionary pages column_type }
{
    match pages {
        Pages::Plain => false,
        Pages::Dict => match column_type {
            ColumnType::Int64 => false,
            ColumnType::ByteArray => true,
        },
    }
}

/// The encodings that a chunk uses: of its values, its levels and its indexes.
fn encoding_trees(alloc: Global, required: bool, dictionary: bool) -> Result<Trees, NoMemory>
    ensures { IfOk result
        (λ ts. map view ts.items ≡ map number_value (encodings required dictionary)) }
{
    let mut trees = vec![in alloc; Tree::Whole32(0)]?;
    if !required {
        trees.push(Tree::Whole32(3))?;
    }
    if dictionary {
        trees.push(Tree::Whole32(8))?;
    }
    Ok(trees)
}

/// The fields that tell what a chunk holds.
fn content_trees(
    alloc: Global,
    dictionary: bool,
    rows: u64,
    column: &Column,
) -> Result<TreeFields, NoMemory>
    requires { rows < 2 ^ 63 }
    ensures { IfOk result
        (λ fs. map field_view fs.items ≡ content_fields dictionary rows column.now) }
{
    let encodings = encoding_trees(alloc, column.required, dictionary)?;
    let path = vec![in alloc; binary_tree(alloc, column.name.as_bytes())?]?;
    let column_type = whole32_field(META_TYPE, type_number(column.column_type));
    let encodings = list_field(META_ENCODINGS, encodings);
    let path = list_field(META_PATH_IN_SCHEMA, path);
    let codec = whole32_field(META_CODEC, 0);
    let values = whole64_field(META_NUM_VALUES, rows as i64);
    Ok(vec![in alloc; column_type, encodings, path, codec, values]?)
}

/// The fields that tell where a chunk's pages stand.
fn place_trees(alloc: Global, chunk: &Chunk) -> Result<TreeFields, NoMemory>
    requires placed { IsPlaced chunk.now }
    requires size { chunk.now.size < 2 ^ 63 }
    ensures { IfOk result (λ fs. map field_view fs.items ≡ place_fields chunk.now) }
{
    let uncompressed = whole64_field(META_TOTAL_UNCOMPRESSED_SIZE, chunk.size as i64);
    let compressed = whole64_field(META_TOTAL_COMPRESSED_SIZE, chunk.size as i64);
    let data_page = whole64_field(META_DATA_PAGE_OFFSET, chunk.data_page as i64);
    Ok(vec![in alloc; uncompressed, compressed, data_page]?)
}

/// The description of a chunk.
fn meta_tree(
    alloc: Global,
    dictionary: bool,
    rows: u64,
    column: &Column,
    chunk: &Chunk,
) -> Result<Tree, NoMemory>
    requires rows { rows < 2 ^ 63 }
    requires placed { IsPlaced chunk.now }
    requires size { chunk.now.size < 2 ^ 63 }
    ensures { IfOk result (λ t. view t ≡ meta_value dictionary rows column.now chunk.now) }
{
    let mut fields = content_trees(alloc, dictionary, rows, column)?;
    fields.append(&mut place_trees(alloc, chunk)?)?;
    if dictionary {
        fields.push(whole64_field(META_DICTIONARY_PAGE_OFFSET, chunk.place as i64))?;
    }
    Ok(struct_tree(fields))
}

/// A chunk.
fn chunk_tree(
    alloc: Global,
    pages: Pages,
    rows: u64,
    column: &Column,
    chunk: &Chunk,
) -> Result<Tree, NoMemory>
    requires rows { rows < 2 ^ 63 }
    requires placed { IsPlaced chunk.now }
    requires size { chunk.now.size < 2 ^ 63 }
    ensures { IfOk result (λ t. view t ≡ chunk_value pages rows column.now chunk.now) }
{
    let dictionary = has_dictionary(pages, column.column_type);
    let place = whole64_field(CHUNK_FILE_OFFSET, chunk.place as i64);
    let meta = tree_field(
        CHUNK_META_DATA,
        meta_tree(alloc, dictionary, rows, column, chunk)?,
    );
    Ok(struct_tree(vec![in alloc; place, meta]?))
}

/// The chunks of columns, one for each.
fn chunk_trees(
    alloc: Global,
    pages: Pages,
    rows: u64,
    columns: &[Column],
    chunks: &[Chunk],
) -> Result<Trees, NoMemory>
    requires rows { rows < 2 ^ 63 }
    requires each { length chunks.now ≡ length columns.now }
    requires placed { All IsPlaced chunks.now }
    requires sizes { size_of_all chunks.now < 2 ^ 63 }
    ensures { IfOk result
        (λ ts. map view ts.items ≡ chunk_values pages rows columns.now chunks.now) }
{
    let mut trees = Vec::new(alloc);
    for (at, column) in columns.iter().enumerate() {
        trees.push(chunk_tree(alloc, pages, rows, column, &chunks[at])?)?;
    }
    Ok(trees)
}

/// How many bytes the chunks have.
fn total_size(chunks: &[Chunk]) -> u64
    requires { size_of_all chunks.now < 2 ^ 63 }
    ensures { result ≡ size_of_all chunks.now }
{
    let mut total = 0;
    for chunk in chunks {
        total += chunk.size;
    }
    total
}

/// The group of all rows.
pub(crate) fn group_tree(
    alloc: Global,
    pages: Pages,
    rows: u64,
    columns: &[Column],
    chunks: &[Chunk],
) -> Result<Tree, NoMemory>
    requires rows { rows < 2 ^ 63 }
    requires each { length chunks.now ≡ length columns.now }
    requires placed { All IsPlaced chunks.now }
    requires sizes { size_of_all chunks.now < 2 ^ 63 }
    ensures { IfOk result (λ t. view t ≡ group_value pages rows columns.now chunks.now) }
{
    let chunk_list = list_field(
        GROUP_COLUMNS,
        chunk_trees(alloc, pages, rows, columns, chunks)?,
    );
    let size = whole64_field(GROUP_TOTAL_BYTE_SIZE, total_size(chunks) as i64);
    let rows = whole64_field(GROUP_NUM_ROWS, rows as i64);
    Ok(struct_tree(vec![in alloc; chunk_list, size, rows]?))
}
