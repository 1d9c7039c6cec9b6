use fd_lists::NoMemory;
use std::error::Error;
use std::fmt;

/// Why bytes can't be read as a footer.
#[derive(Clone, Copy, Debug, PartialEq, Eq)]
pub enum FooterFault {
    /// The bytes are not the spelling of a Thrift struct with the field numbers and kinds of a
    /// footer.
    Footer,
    /// The columns or the key-value entries are none of this project's files.
    Schema,
    NoMemory,
}

impl fmt::Display for FooterFault {
    fn fmt<W: fmt::Write>(&self, f: &mut fmt::Formatter<W>) -> fmt::Result {
        match self {
            FooterFault::Footer => write!(f, "no Thrift struct with the fields of a FileMetaData"),
            FooterFault::Schema => write!(f, "a footer of another program's columns or entries"),
            FooterFault::NoMemory => write!(f, "out of memory"),
        }
    }
}

impl Error for FooterFault {}

impl From<NoMemory> for FooterFault {
    ghost use Rattle.std.specs.Prelude.{◌≡◌};
    ghost use Rattle.fd_footer.specs.declared.fault.FooterFault.TheVariants.{NoMemory};

    ghost from_gives = { λ _ e. e ≡ NoMemory };

    fn from(_error: NoMemory) -> FooterFault {
        FooterFault::NoMemory
    }
}
