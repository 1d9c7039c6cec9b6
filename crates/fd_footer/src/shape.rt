ghost use Rattle.std.specs.Prelude.{◌≡◌};
ghost use Rattle.fd_thrift.specs.View.{view, items_view, fields_view};
ghost use Rattle.fd_footer.specs.Shapes.{rules as rules_of, needed as needed_of, item_shapes as item_shapes_of, fits as fits_shape, items_fit as items_have, fields_fit as fields_have, has_shape as has_footer_shape};

use crate::field_ids::{
    CHUNK_FILE_OFFSET, CHUNK_META_DATA, ELEMENT_NAME, ELEMENT_NUM_CHILDREN,
    ELEMENT_REPETITION_TYPE, ELEMENT_TYPE, FILE_CREATED_BY, FILE_KEY_VALUE_METADATA, FILE_NUM_ROWS,
    FILE_ROW_GROUPS, FILE_SCHEMA, FILE_VERSION, GROUP_COLUMNS, GROUP_NUM_ROWS,
    GROUP_TOTAL_BYTE_SIZE, META_CODEC, META_DATA_PAGE_OFFSET, META_DICTIONARY_PAGE_OFFSET,
    META_ENCODINGS, META_NUM_VALUES, META_PATH_IN_SCHEMA, META_TOTAL_COMPRESSED_SIZE,
    META_TOTAL_UNCOMPRESSED_SIZE, META_TYPE, PAIR_KEY, PAIR_VALUE,
};
use fd_thrift::{Tree, TreeFields, Trees};

/// A kind of value in a footer: a number, a text, or one of Parquet's lists and structs
/// (`parquet.thrift`).
#[derive(Clone, Copy, Debug, PartialEq, Eq)]
pub(crate) enum Shape {
    Whole32,
    Whole64,
    Binary,
    FileMetaData,
    /// The root's element, and one for each column.
    Schema,
    Root,
    Element,
    RowGroups,
    RowGroup,
    ColumnChunks,
    ColumnChunk,
    ColumnMetaData,
    Encodings,
    Path,
    KeyValues,
    KeyValue,
}

/// The number of a field, and what stands there.
#[derive(Clone, Copy, Debug, PartialEq, Eq)]
pub(crate) struct Rule {
    pub(crate) id: i16,
    pub(crate) shape: Shape,
}

const FILE_META_DATA: [Rule; 6] = [
    Rule {
        id: FILE_VERSION,
        shape: Shape::Whole32,
    },
    Rule {
        id: FILE_SCHEMA,
        shape: Shape::Schema,
    },
    Rule {
        id: FILE_NUM_ROWS,
        shape: Shape::Whole64,
    },
    Rule {
        id: FILE_ROW_GROUPS,
        shape: Shape::RowGroups,
    },
    Rule {
        id: FILE_KEY_VALUE_METADATA,
        shape: Shape::KeyValues,
    },
    Rule {
        id: FILE_CREATED_BY,
        shape: Shape::Binary,
    },
];

const ROOT: [Rule; 2] = [
    Rule {
        id: ELEMENT_NAME,
        shape: Shape::Binary,
    },
    Rule {
        id: ELEMENT_NUM_CHILDREN,
        shape: Shape::Whole32,
    },
];

const ELEMENT: [Rule; 3] = [
    Rule {
        id: ELEMENT_TYPE,
        shape: Shape::Whole32,
    },
    Rule {
        id: ELEMENT_REPETITION_TYPE,
        shape: Shape::Whole32,
    },
    Rule {
        id: ELEMENT_NAME,
        shape: Shape::Binary,
    },
];

const ROW_GROUP: [Rule; 3] = [
    Rule {
        id: GROUP_COLUMNS,
        shape: Shape::ColumnChunks,
    },
    Rule {
        id: GROUP_TOTAL_BYTE_SIZE,
        shape: Shape::Whole64,
    },
    Rule {
        id: GROUP_NUM_ROWS,
        shape: Shape::Whole64,
    },
];

const COLUMN_CHUNK: [Rule; 2] = [
    Rule {
        id: CHUNK_FILE_OFFSET,
        shape: Shape::Whole64,
    },
    Rule {
        id: CHUNK_META_DATA,
        shape: Shape::ColumnMetaData,
    },
];

const COLUMN_META_DATA: [Rule; 9] = [
    Rule {
        id: META_TYPE,
        shape: Shape::Whole32,
    },
    Rule {
        id: META_ENCODINGS,
        shape: Shape::Encodings,
    },
    Rule {
        id: META_PATH_IN_SCHEMA,
        shape: Shape::Path,
    },
    Rule {
        id: META_CODEC,
        shape: Shape::Whole32,
    },
    Rule {
        id: META_NUM_VALUES,
        shape: Shape::Whole64,
    },
    Rule {
        id: META_TOTAL_UNCOMPRESSED_SIZE,
        shape: Shape::Whole64,
    },
    Rule {
        id: META_TOTAL_COMPRESSED_SIZE,
        shape: Shape::Whole64,
    },
    Rule {
        id: META_DATA_PAGE_OFFSET,
        shape: Shape::Whole64,
    },
    Rule {
        id: META_DICTIONARY_PAGE_OFFSET,
        shape: Shape::Whole64,
    },
];

const KEY_VALUE: [Rule; 2] = [
    Rule {
        id: PAIR_KEY,
        shape: Shape::Binary,
    },
    Rule {
        id: PAIR_VALUE,
        shape: Shape::Binary,
    },
];

/// The fields of a struct, in order; other shapes have none.
fn rules(shape: Shape) -> &'static [Rule]
    ensures { result.now ≡ rules_of shape }
{
    match shape {
        Shape::FileMetaData => &FILE_META_DATA,
        Shape::Root => &ROOT,
        Shape::Element => &ELEMENT,
        Shape::RowGroup => &ROW_GROUP,
        Shape::ColumnChunk => &COLUMN_CHUNK,
        Shape::ColumnMetaData => &COLUMN_META_DATA,
        Shape::KeyValue => &KEY_VALUE,
        _ => &[],
    }
}

/// How many of the fields have to be there.
fn needed(shape: Shape) -> usize
    ensures { result ≡ needed_of shape }
{
    match shape {
        Shape::FileMetaData => 6,
        Shape::Element => 3,
        Shape::RowGroup => 3,
        Shape::Root => 2,
        Shape::ColumnChunk => 2,
        Shape::KeyValue => 2,
        Shape::ColumnMetaData => 8,
        _ => 1,
    }
}

/// The shapes of a list's first item and of the others.
fn item_shapes(shape: Shape) -> Option<(Shape, Shape)>
    ensures { result ≡ item_shapes_of shape }
{
    match shape {
        Shape::Schema => Some((Shape::Root, Shape::Element)),
        Shape::RowGroups => Some((Shape::RowGroup, Shape::RowGroup)),
        Shape::ColumnChunks => Some((Shape::ColumnChunk, Shape::ColumnChunk)),
        Shape::Encodings => Some((Shape::Whole32, Shape::Whole32)),
        Shape::Path => Some((Shape::Binary, Shape::Binary)),
        Shape::KeyValues => Some((Shape::KeyValue, Shape::KeyValue)),
        _ => None,
    }
}

/// Whether a tree has the shape.
#[cycle(fits)]
fn fits(shape: Shape, tree: &Tree) -> bool
    ensures { result ≡ fits_shape shape (view tree.now) }
{
    match tree {
        Tree::Whole32(_) => shape == Shape::Whole32,
        Tree::Whole64(_) => shape == Shape::Whole64,
        Tree::Binary(_) => shape == Shape::Binary,
        Tree::List(trees) => match item_shapes(shape) {
            Some((first, others)) => items_fit(first, others, trees),
            None => false,
        },
        Tree::Struct(fields) => fields_fit(needed(shape), rules(shape), fields),
    }
}

/// Whether the first tree and the others have the shapes.
#[cycle(fits)]
fn items_fit(first: Shape, others: Shape, trees: &Trees) -> bool
    ensures { result ≡ items_have first others (items_view trees.now.items) }
{
    let mut shape = first;
    for tree in trees {
        if !fits(shape, tree) {
            return false;
        }
        shape = others;
    }
    true
}

/// Whether the fields follow the rules in order, with so many at least.
#[cycle(fits)]
fn fields_fit(least: usize, rules: &[Rule], fields: &TreeFields) -> bool
    ensures { result ≡ fields_have least rules.now (fields_view fields.now.items) }
{
    for (at, field) in fields.iter().enumerate() {
        let Some(rule) = rules.get(at) else {
            return false;
        };
        if field.id != rule.id || !fits(rule.shape, &field.tree) {
            return false;
        }
    }
    fields.len() >= least
}

/// Whether a tree has the fields of a footer, and each of them its kind.
#[tactic(auto, unfolding(crate::specs::Shapes::has_shape))]
pub(crate) fn has_shape(tree: &Tree) -> bool
    ensures { result ≡ has_footer_shape (view tree.now) }
{
    fits(Shape::FileMetaData, tree)
}
