ghost use Rattle.std.specs.Prelude.{◌≡◌, ◌++◌, ◌<◌, ◌^◌, IfOk, OnOk};
ghost use Rattle.fd_thrift.specs.Format.{spelling, items_spelling, items_kind, items_len, list_header, fields_spelling, IsFormed, AreFormedItems, AreFormedFields, AreOfKind, Fits, FitItems, FitFields, IsLegal, Spells};
ghost use Rattle.fd_thrift.specs.View.{view, items_view, fields_view};

use crate::kind::{Kind, code, tree_kind};
use crate::numbers::{push_varint, zigzag};
use crate::{Bytes, NoMemory, Tree, TreeField, TreeFields, Trees};
use std::alloc::Global;

/// Adds the header of a list of so many items of a type.
fn push_list_header(out: &mut Bytes, size: usize, kind: Kind) -> Result<(), NoMemory>
    ensures { OnOk result (out.new ≡ out.old ++ list_header size kind) }
{
    if size < 15 {
        out.push(size as u8 * 16 + code(kind))
    } else {
        out.push(15 * 16 + code(kind))?;
        push_varint(out, size as u64)
    }
}

/// The type of a list's items.
fn trees_kind(trees: &[Tree]) -> Kind
    ensures { result ≡ items_kind (items_view trees.now) }
{
    match trees.first() {
        Some(tree) => tree_kind(tree),
        None => Kind::Struct,
    }
}

/// Adds the spelling of a tree.
#[cycle(write)]
fn write_tree(out: &mut Bytes, tree: &Tree) -> Result<(), NoMemory>
    requires { IsFormed (view tree.now) }
    ensures ok { OnOk result (out.new ≡ out.old ++ spelling (view tree.now)) }
    ensures fits { OnOk result (Fits (view tree.now)) }
{
    match tree {
        Tree::Whole32(number) => push_varint(out, zigzag(i64::from(*number))),
        Tree::Whole64(number) => push_varint(out, zigzag(*number)),
        Tree::Binary(bytes) => {
            push_varint(out, bytes.len() as u64)?;
            out.extend(bytes.as_slice())
        }
        Tree::List(trees) => {
            push_list_header(out, trees.len(), trees_kind(trees))?;
            write_items(out, trees)
        }
        Tree::Struct(fields) => write_fields(out, fields),
    }
}

/// Adds the spellings of trees, one after another.
#[cycle(write)]
fn write_items(out: &mut Bytes, trees: &Trees) -> Result<(), NoMemory>
    requires { AreFormedItems (items_view trees.now.items) }
    ensures ok { OnOk result (out.new ≡ out.old ++ items_spelling (items_view trees.now.items)) }
    ensures fits { OnOk result (FitItems (items_view trees.now.items)) }
{
    for tree in trees {
        write_tree(out, tree)?;
    }
    Ok(())
}

/// Adds the spelling of a struct with these fields.
#[cycle(write)]
fn write_fields(out: &mut Bytes, fields: &TreeFields) -> Result<(), NoMemory>
    requires { AreFormedFields 0 (fields_view fields.now.items) }
    ensures ok { OnOk result
        (out.new ≡ out.old ++ fields_spelling 0 (fields_view fields.now.items)) }
    ensures fits { OnOk result (FitFields (fields_view fields.now.items)) }
{
    let mut last = 0i16;
    for field in fields {
        let step = (field.id - last) as u8;
        out.push(16 * step + code(tree_kind(&field.tree)))?;
        write_tree(out, &field.tree)?;
        last = field.id;
    }
    out.push(0)
}

/// The one spelling of a tree, which is a struct of at most eight levels
/// (`thrift-compact-protocol.md`, "Struct encoding"): numbers in their least number of bytes, field
/// headers and list headers in their short form where they have one, and `0c` for an empty list.
pub fn write(alloc: Global, tree: &Tree) -> Result<Bytes, NoMemory>
    requires { IsLegal (view tree.now) }
    ensures { IfOk result (λ bytes. Spells bytes (view tree.now)) }
{
    let mut out = Bytes::new(alloc);
    write_tree(&mut out, tree)?;
    Ok(out)
}
