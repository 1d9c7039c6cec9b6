ghost use Rattle.std.specs.Prelude.{◌≡◌, pos, true, false, map, IfOk, MatchOption};
ghost use Rattle.std.specs.List.{list_all};
ghost use Rattle.std.specs.Ordering.{int_eq};
ghost use Rattle.std.specs.Str.{is_utf8};
ghost use Rattle.fd_thrift.specs.View.{view};
ghost use Rattle.fd_footer.specs.Contents.{is_type as is_type_number, is_repetition as is_repetition_number, is_column, column_at, is_root as is_root_value, is_schema, columns_in};

use crate::field_ids::{ELEMENT_NAME, ELEMENT_NUM_CHILDREN, ELEMENT_REPETITION_TYPE, ELEMENT_TYPE};
use crate::layout::are_own;
use crate::lookup::{number, text};
use crate::{Column, ColumnType, Columns};
use fd_lists::{Items, NoMemory, Text};
use fd_thrift::Tree;
use std::alloc::Global;

/// The text of these bytes, where they are UTF-8.
#[tactic(auto, using(crate::proofs::Utf8::utf8_tests))]
fn name_of(alloc: Global, bytes: &[u8]) -> Result<Option<Text>, NoMemory>
    ensures { IfOk result (λ text. MatchOption text (is_utf8 bytes.now ≡ false)
        (λ t. (t ≡ bytes.now) × (is_utf8 bytes.now ≡ true))) }
{
    match std::str::from_utf8(bytes) {
        Ok(text) => Ok(Some(Text::of(alloc, text)?)),
        Err(_) => Ok(None),
    }
}

/// Whether a number stands for a physical type that is used.
fn is_type(number: i64) -> bool
    ensures { result ≡ is_type_number number }
{
    number == 2 || number == 6
}

/// Whether a number stands for REQUIRED or OPTIONAL.
fn is_repetition(number: i64) -> bool
    ensures { result ≡ is_repetition_number number }
{
    number == 0 || number == 1
}

/// The column that an element describes.
fn column_of(alloc: Global, element: &Tree) -> Result<Option<Column>, NoMemory>
    ensures { IfOk result (λ column. MatchOption column (is_column (view element.now) ≡ false)
        (λ c. (c ≡ column_at (view element.now)) × (is_column (view element.now) ≡ true))) }
{
    let type_number = number(element, ELEMENT_TYPE);
    let repetition = number(element, ELEMENT_REPETITION_TYPE);
    if !is_type(type_number) || !is_repetition(repetition) {
        return Ok(None);
    }
    let Some(name) = name_of(alloc, text(element, ELEMENT_NAME))? else {
        return Ok(None);
    };
    let column_type = if type_number == 2 {
        ColumnType::Int64
    } else {
        ColumnType::ByteArray
    };
    Ok(Some(Column {
        name,
        column_type,
        required: repetition == 0,
    }))
}

/// The columns that elements describe.
fn columns_of(alloc: Global, elements: &[Tree]) -> Result<Option<Columns>, NoMemory>
    ensures { IfOk result
        (λ columns. MatchOption columns (list_all is_column (map view elements.now) ≡ false)
        (λ cs. (cs ≡ map column_at (map view elements.now))
        × (list_all is_column (map view elements.now) ≡ true))) }
{
    let mut columns = Items::new(alloc);
    for element in elements {
        match column_of(alloc, element)? {
            Some(column) => columns.push(column)?,
            None => return Ok(None),
        }
    }
    Ok(Some(columns))
}

/// Whether a number with a sign is this one.
fn is_count(number: i64, count: usize) -> bool
    ensures { result ≡ int_eq number (pos count) }
{
    number >= 0 && number as usize == count
}

/// Whether an element is that of a root with so many columns.
fn is_root(columns: usize, element: &Tree) -> bool
    ensures { result ≡ is_root_value columns (view element.now) }
{
    text(element, ELEMENT_NAME) == b"schema".as_slice()
        && is_count(number(element, ELEMENT_NUM_CHILDREN), columns)
}

/// The columns of a schema, where they are those of this project's files.
pub(crate) fn schema_columns(alloc: Global, schema: &[Tree]) -> Result<Option<Columns>, NoMemory>
    ensures { IfOk result (λ columns. MatchOption columns (is_schema (map view schema.now) ≡ false)
        (λ cs. (cs ≡ columns_in (map view schema.now))
        × (is_schema (map view schema.now) ≡ true))) }
{
    let Some((root, elements)) = schema.split_first() else {
        return Ok(None);
    };
    if !is_root(elements.len(), root) {
        return Ok(None);
    }
    let Some(columns) = columns_of(alloc, elements)? else {
        return Ok(None);
    };
    if are_own(columns.as_slice()) {
        Ok(Some(columns))
    } else {
        Ok(None)
    }
}
