use crate::NoMemory;
use std::alloc::AllocFailed;
use std::error::Error;
use std::fmt;

/// Why bytes can't be read as a tree: the first fault from left to right, told at the first byte
/// with which they are no front of a spelling. At one byte the order is that below.
#[derive(Clone, Copy, Debug, PartialEq, Eq)]
pub enum ThriftFault {
    /// The bytes end within the tree: more bytes could complete it.
    Cut,
    /// A header with another type than those of numbers of 32 and 64 bits, binary, lists and
    /// structs; a field header whose step is 0 (the long form) or leads past the field id 32,767;
    /// or the header of an empty list with another type than that of structs.
    BadType,
    /// A number that isn't in its least number of bytes or doesn't fit its width (32 or 64 bits,
    /// and 64 for sizes and lengths), or a size below 15 in the long form of a list header.
    BadSize,
    /// A header that tells of a value on the ninth level. The outermost struct stands on the
    /// first, and a number, a text or an empty list or struct takes a level too.
    Deep,
    NoMemory,
}

impl fmt::Display for ThriftFault {
    fn fmt<W: fmt::Write>(&self, f: &mut fmt::Formatter<W>) -> fmt::Result {
        match self {
            ThriftFault::Cut => write!(f, "the bytes end within a Thrift value"),
            ThriftFault::BadType => write!(f, "no Thrift type or field id that is written here"),
            ThriftFault::BadSize => write!(
                f,
                "a Thrift number or size in another than its shortest form"
            ),
            ThriftFault::Deep => write!(f, "a Thrift value on the ninth level"),
            ThriftFault::NoMemory => write!(f, "out of memory"),
        }
    }
}

impl Error for ThriftFault {}

impl From<NoMemory> for ThriftFault {
    ghost use Rattle.std.specs.Prelude.{◌≡◌};
    ghost use Rattle.fd_thrift.specs.declared.fault.ThriftFault.TheVariants.{NoMemory};

    ghost from_gives = { λ _ e. e ≡ NoMemory };

    fn from(_error: NoMemory) -> ThriftFault {
        ThriftFault::NoMemory
    }
}

impl<T: Drop> From<AllocFailed<T>> for ThriftFault {
    ghost use Rattle.std.specs.Prelude.{◌≡◌};
    ghost use Rattle.fd_thrift.specs.declared.fault.ThriftFault.TheVariants.{NoMemory};

    ghost from_gives = { λ _ e. e ≡ NoMemory };

    fn from(_error: AllocFailed<T>) -> ThriftFault {
        ThriftFault::NoMemory
    }
}
