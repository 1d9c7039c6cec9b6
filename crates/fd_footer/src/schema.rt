ghost use Rattle.std.specs.Prelude.{◌≡◌, ◌<◌, ◌^◌, pos, IfOk, length};
ghost use Rattle.fd_thrift.specs.View.{view, items_view};
ghost use Rattle.fd_thrift.specs.Values.{list};
ghost use Rattle.fd_footer.specs.Tables.{type_number as number_of_type, repetition_number as number_of_repetition, root_value, column_value, schema_value};

use crate::field_ids::{ELEMENT_NAME, ELEMENT_NUM_CHILDREN, ELEMENT_REPETITION_TYPE, ELEMENT_TYPE};
use crate::fields::{binary_field, struct_tree, whole32_field};
use crate::{Column, ColumnType};
use fd_lists::NoMemory;
use fd_thrift::{Tree, Trees};
use std::alloc::Global;

/// Parquet's number of a physical type.
pub(crate) fn type_number(column_type: ColumnType) -> i32
    ensures { result ≡ pos (number_of_type column_type) }
{
    match column_type {
        ColumnType::Int64 => 2,
        ColumnType::ByteArray => 6,
    }
}

/// Parquet's number of REQUIRED or OPTIONAL.
pub(crate) fn repetition_number(required: bool) -> i32
    ensures { result ≡ pos (number_of_repetition required) }
{
    if required { 0 } else { 1 }
}

/// The root's element, which tells how many columns there are.
fn root_tree(alloc: Global, columns: usize) -> Result<Tree, NoMemory>
    requires { columns < 2 ^ 31 }
    ensures { IfOk result (λ t. view t ≡ root_value columns) }
{
    let name = binary_field(alloc, ELEMENT_NAME, b"schema")?;
    let children = whole32_field(ELEMENT_NUM_CHILDREN, columns as i32);
    Ok(struct_tree(vec![in alloc; name, children]?))
}

/// A column's element.
fn column_tree(alloc: Global, column: &Column) -> Result<Tree, NoMemory>
    ensures { IfOk result (λ t. view t ≡ column_value column.now) }
{
    let kind = whole32_field(ELEMENT_TYPE, type_number(column.column_type));
    let repetition = whole32_field(ELEMENT_REPETITION_TYPE, repetition_number(column.required));
    let name = binary_field(alloc, ELEMENT_NAME, column.name.as_bytes())?;
    Ok(struct_tree(vec![in alloc; kind, repetition, name]?))
}

/// The elements of the root and the columns.
pub(crate) fn schema_trees(alloc: Global, columns: &[Column]) -> Result<Trees, NoMemory>
    requires { length columns.now < 2 ^ 31 }
    ensures { IfOk result (λ ts. list (items_view ts.items) ≡ schema_value columns.now) }
{
    let mut trees = vec![in alloc; root_tree(alloc, columns.len())?]?;
    for column in columns {
        trees.push(column_tree(alloc, column)?)?;
    }
    Ok(trees)
}
