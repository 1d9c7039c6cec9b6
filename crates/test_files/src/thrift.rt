ghost use Rattle.std.specs.Prelude.{IfOk};
ghost use Rattle.fd_thrift.specs.Format.{IsLegal};
ghost use Rattle.fd_thrift.specs.View.{view};

use fd_thrift::{ThriftFault, Tree, TreeField, read, write};
use std::alloc::{AllocError, Global};

/// A page header of Apache Parquet, and a byte behind it.
const PAGE_HEADER: [u8; 18] = [
    0x15, 0x00, 0x15, 0x20, 0x15, 0x20, 0x2c, 0x15, 0x06, 0x15, 0x00, 0x15, 0x06, 0x15, 0x06, 0x00,
    0x00, 0x77,
];

/// Seven structs inside one another in an eighth, and a byte behind them.
const EIGHT_LEVELS: [u8; 16] = [
    0x1c, 0x1c, 0x1c, 0x1c, 0x1c, 0x1c, 0x1c, 0, 0, 0, 0, 0, 0, 0, 0, 9,
];

fn fault(alloc: Global, bytes: &[u8]) -> Option<ThriftFault> {
    read(alloc, bytes, 0, bytes.len()).err()
}

/// Whether the bytes from `at` are a tree that is written as the same bytes.
fn comes_back(alloc: Global, bytes: &[u8], at: usize, after: usize) -> bool {
    if at > after || after > bytes.len() {
        return false;
    }
    let Ok((tree, place)) = read(alloc, bytes, at, bytes.len()) else {
        return false;
    };
    let Ok(again) = write(alloc, &tree) else {
        return false;
    };
    place == after && again.as_slice() == &bytes[at..after]
}

fn two_numbers(alloc: Global) -> Result<Tree, AllocError>
    ensures { IfOk result (λ tree. IsLegal (view tree)) }
{
    let one = TreeField {
        id: 1,
        tree: Tree::Whole32(1),
    };
    let two = TreeField {
        id: 3,
        tree: Tree::Whole64(2),
    };
    Ok(Tree::Struct(vec![in alloc; one, two]?))
}

#[test]
fn two_numbers_are_written(rt: HostRuntime) -> Result<(), AllocError> {
    let tree = two_numbers(rt.alloc())?;
    let bytes = write(rt.alloc(), &tree).ok();
    assert!(rt; bytes.is_some_and(|b| b.as_slice() == [0x15, 0x02, 0x26, 0x04, 0x00].as_slice()));
    Ok(())
}

/// Bytes with a tree from a place up to another.
const TREES: [(&[u8], usize, usize); 5] = [
    (&PAGE_HEADER, 0, 17),
    (&[0xff, 0x15, 0x02, 0x26, 0x04, 0x00], 1, 6),
    (&[0x15, 0xff, 0xff, 0xff, 0xff, 0x0f, 0x00], 0, 7),
    (&[0x19, 0x0c, 0x19, 0x28, 0x01, 0x61, 0x00, 0x00], 0, 8),
    (&EIGHT_LEVELS, 0, 15),
];

#[test]
fn trees_come_back(rt: HostRuntime) {
    for (bytes, at, after) in TREES {
        assert!(rt; comes_back(rt.alloc(), bytes, at, after));
    }
}

const FAULTS: [(&[u8], ThriftFault); 14] = [
    (&[], ThriftFault::Cut),
    (&[0x15, 0x02], ThriftFault::Cut),
    (&[0x18, 0x02, 0x61], ThriftFault::Cut),
    (&[0x11, 0x00], ThriftFault::BadType),
    (&[0x05, 0x02, 0x00], ThriftFault::BadType),
    (&[0x19, 0x05, 0x00], ThriftFault::BadType),
    (&[0x15, 0x82, 0x00, 0x00], ThriftFault::BadSize),
    (
        &[0x15, 0x80, 0x80, 0x80, 0x80, 0x10, 0x00],
        ThriftFault::BadSize,
    ),
    (&[0x15, 0x80, 0x80, 0x80, 0x80, 0x80], ThriftFault::BadSize),
    (&[0x19, 0xf5, 0x0e], ThriftFault::BadSize),
    (
        &[0x1c, 0x1c, 0x1c, 0x1c, 0x1c, 0x1c, 0x1c, 0x1c],
        ThriftFault::Deep,
    ),
    (
        &[0x1c, 0x1c, 0x1c, 0x1c, 0x1c, 0x1c, 0x19, 0xf5],
        ThriftFault::Deep,
    ),
    (
        &[0x1c, 0x1c, 0x1c, 0x1c, 0x1c, 0x1c, 0x19, 0x0c],
        ThriftFault::Cut,
    ),
    (
        &[0x1c, 0x1c, 0x1c, 0x1c, 0x1c, 0x1c, 0x1c, 0x1b],
        ThriftFault::BadType,
    ),
];

#[test]
fn first_faults_are_told(rt: HostRuntime) {
    for (bytes, expected) in FAULTS {
        assert!(rt; fault(rt.alloc(), bytes) == Some(expected), "{expected:?}");
    }
}
