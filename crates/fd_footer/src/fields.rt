ghost use Rattle.std.specs.Prelude.{◌≡◌, IfOk};
ghost use Rattle.fd_thrift.specs.Values.{whole32, whole64, binary, list, struct as structure};
ghost use Rattle.fd_thrift.specs.View.{view, field_view, items_view, fields_view};

use fd_lists::NoMemory;
use fd_thrift::{Bytes, Tree, TreeField, TreeFields, Trees};
use std::alloc::Global;

/// A field with a number of 32 bits.
pub(crate) fn whole32_field(id: i16, number: i32) -> TreeField
    ensures { field_view result ≡ (id, whole32 number) }
{
    TreeField {
        id,
        tree: Tree::Whole32(number),
    }
}

/// A field with a number of 64 bits.
pub(crate) fn whole64_field(id: i16, number: i64) -> TreeField
    ensures { field_view result ≡ (id, whole64 number) }
{
    TreeField {
        id,
        tree: Tree::Whole64(number),
    }
}

/// A text.
pub(crate) fn binary_tree(alloc: Global, bytes: &[u8]) -> Result<Tree, NoMemory>
    ensures { IfOk result (λ t. view t ≡ binary bytes.now) }
{
    match Bytes::from_slice(alloc, bytes) {
        Ok(copy) => Ok(Tree::Binary(copy)),
        Err(_) => Err(NoMemory),
    }
}

/// A field with a text.
pub(crate) fn binary_field(alloc: Global, id: i16, bytes: &[u8]) -> Result<TreeField, NoMemory>
    ensures { IfOk result (λ f. field_view f ≡ (id, binary bytes.now)) }
{
    let tree = binary_tree(alloc, bytes)?;
    Ok(TreeField { id, tree })
}

/// A field with a list.
pub(crate) fn list_field(id: i16, trees: Trees) -> TreeField
    ensures { field_view result ≡ (id, list (items_view trees.items)) }
{
    TreeField {
        id,
        tree: Tree::List(trees),
    }
}

/// A field with any value.
pub(crate) fn tree_field(id: i16, tree: Tree) -> TreeField
    ensures { field_view result ≡ (id, view tree) }
{
    TreeField { id, tree }
}

/// A struct of these fields.
pub(crate) fn struct_tree(fields: TreeFields) -> Tree
    ensures { view result ≡ structure (fields_view fields.items) }
{
    Tree::Struct(fields)
}
