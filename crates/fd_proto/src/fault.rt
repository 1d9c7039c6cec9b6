use fd_lists::NoMemory;
use std::error::Error;
use std::fmt;

/// Why bytes can't be read as a profile's messages.
#[derive(Clone, Copy, Debug, PartialEq, Eq)]
pub enum ProtoFault {
    /// The wire format fails at the place `at`, counted in bytes from the first.
    Wire { at: usize },
    NoMemory,
}

impl fmt::Display for ProtoFault {
    fn fmt<W: fmt::Write>(&self, f: &mut fmt::Formatter<W>) -> fmt::Result {
        match self {
            ProtoFault::Wire { at } => write!(f, "the wire format fails at byte {at}"),
            ProtoFault::NoMemory => write!(f, "out of memory"),
        }
    }
}

impl Error for ProtoFault {}

impl From<NoMemory> for ProtoFault {
    ghost use Rattle.std.specs.Prelude.{◌≡◌};
    ghost use Rattle.fd_proto.specs.declared.fault.ProtoFault.TheVariants.{NoMemory};

    ghost from_gives = { λ _ e. e ≡ NoMemory };

    fn from(_error: NoMemory) -> ProtoFault {
        ProtoFault::NoMemory
    }
}
