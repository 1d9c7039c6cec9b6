ghost use Rattle.std.specs.Prelude.{◌≡◌};
ghost use Rattle.fd_thrift.specs.Format.{code_of, kind_of};
ghost use Rattle.fd_thrift.specs.Reader.{kind_at, is_struct};
ghost use Rattle.fd_thrift.specs.View.{view};

use crate::{ThriftFault, Tree};

/// The type of a value.
#[derive(Clone, Copy, Debug, PartialEq, Eq)]
pub(crate) enum Kind {
    Whole32,
    Whole64,
    Binary,
    List,
    Struct,
}

/// The type that a header names by this code.
pub(crate) fn read_kind(code: u8) -> Result<Kind, ThriftFault>
    ensures { result ≡ kind_at code }
{
    match code {
        5 => Ok(Kind::Whole32),
        6 => Ok(Kind::Whole64),
        8 => Ok(Kind::Binary),
        9 => Ok(Kind::List),
        12 => Ok(Kind::Struct),
        _ => Err(ThriftFault::BadType),
    }
}

/// The code of a type in headers.
pub(crate) fn code(kind: Kind) -> u8
    ensures { result ≡ code_of kind }
{
    match kind {
        Kind::Whole32 => 5,
        Kind::Whole64 => 6,
        Kind::Binary => 8,
        Kind::List => 9,
        Kind::Struct => 12,
    }
}

/// The type of a tree.
pub(crate) fn tree_kind(tree: &Tree) -> Kind
    ensures { result ≡ kind_of (view tree.now) }
{
    match tree {
        Tree::Whole32(_) => Kind::Whole32,
        Tree::Whole64(_) => Kind::Whole64,
        Tree::Binary(_) => Kind::Binary,
        Tree::List(_) => Kind::List,
        Tree::Struct(_) => Kind::Struct,
    }
}
