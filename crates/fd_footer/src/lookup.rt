ghost use Rattle.std.specs.Prelude.{◌≡◌, ℤ, map, MatchOption};
ghost use Rattle.fd_thrift.specs.Values.{struct as structure, no_fields};
ghost use Rattle.fd_thrift.specs.View.{view, fields_view};
ghost use Rattle.fd_footer.specs.Lookups.{field_in, field_at, number_of as number_in_value, text_of as text_in_value, values_of as values_in_value, number_at, text_at, values_at};

use fd_thrift::{Tree, TreeField};

/// The value of the first of the fields with this number.
fn find(fields: &[TreeField], id: i16) -> Option<&Tree>
    ensures { MatchOption result (field_in id (fields_view fields.now) ≡ structure no_fields)
        (λ t. view t.now ≡ field_in id (fields_view fields.now)) }
{
    for field in fields {
        if field.id == id {
            return Some(&field.tree);
        }
    }
    None
}

/// The value of the field with this number.
fn field(tree: &Tree, id: i16) -> Option<&Tree>
    ensures { MatchOption result (field_at id (view tree.now) ≡ structure no_fields)
        (λ t. view t.now ≡ field_at id (view tree.now)) }
{
    match tree {
        Tree::Struct(fields) => find(fields.as_slice(), id),
        _ => None,
    }
}

/// The number that a tree is.
fn number_of(tree: &Tree) -> i64
    ensures { result ≡ number_in_value (view tree.now) }
{
    match tree {
        Tree::Whole32(number) => i64::from(*number),
        Tree::Whole64(number) => *number,
        _ => 0,
    }
}

/// The text that a tree is.
fn text_of(tree: &Tree) -> &[u8]
    ensures { result.now ≡ text_in_value (view tree.now) }
{
    match tree {
        Tree::Binary(bytes) => bytes.as_slice(),
        _ => &[],
    }
}

/// The items of the list that a tree is.
fn trees_of(tree: &Tree) -> &[Tree]
    ensures { map view result.now ≡ values_in_value (view tree.now) }
{
    match tree {
        Tree::List(trees) => trees.as_slice(),
        _ => &[],
    }
}

/// The number in the field `id`, and 0 where there is none.
pub(crate) fn number(tree: &Tree, id: i16) -> i64
    ensures { result ≡ number_at id (view tree.now) }
{
    match field(tree, id) {
        Some(found) => number_of(found),
        None => 0,
    }
}

/// The text in the field `id`, and an empty one where there is none.
pub(crate) fn text(tree: &Tree, id: i16) -> &[u8]
    ensures { result.now ≡ text_at id (view tree.now) }
{
    match field(tree, id) {
        Some(found) => text_of(found),
        None => &[],
    }
}

/// The items of the list in the field `id`, and none where there is no list.
pub(crate) fn trees(tree: &Tree, id: i16) -> &[Tree]
    ensures { map view result.now ≡ values_at id (view tree.now) }
{
    match field(tree, id) {
        Some(found) => trees_of(found),
        None => &[],
    }
}
