use fd_kinds::NoMemory;
use std::error::Error;
use std::fmt;

/// Why a write body was not read. The first of these that holds is answered.
#[derive(Debug, Clone, Copy, PartialEq, Eq)]
pub enum BodyFault {
    /// The bytes are no JSON text (RFC 8259) in UTF-8, or it nests more than 127 deep, or a number
    /// in it is too large for a float.
    NotJson,
    /// The value has not the shape of a write body.
    BadShape,
    /// The text of a profile is no base64 with padding (RFC 4648, section 4). The first such text,
    /// by the place of its series in the body and of its sample in the series, both from 0.
    BadBase64 { series: u64, sample: u64 },
    /// Want of memory.
    NoMemory,
}

impl fmt::Display for BodyFault {
    fn fmt<W: fmt::Write>(&self, f: &mut fmt::Formatter<W>) -> fmt::Result {
        match self {
            BodyFault::NotJson => write!(f, "the body is not JSON"),
            BodyFault::BadShape => write!(f, "the body is JSON of another shape"),
            BodyFault::BadBase64 { series, sample } => {
                write!(f, "sample {sample} of series {series} is not base64")
            }
            BodyFault::NoMemory => write!(f, "out of memory"),
        }
    }
}

impl Error for BodyFault {}

/// Why a part of a JSON value was not read.
#[derive(Clone, Copy)]
pub(crate) enum Unread {
    BadShape,
    NoMemory,
}

impl From<NoMemory> for Unread {
    ghost use Rattle.std.specs.Prelude.{◌≡◌};
    ghost use Rattle.fd_json.specs.declared.fault.Unread.TheVariants.{NoMemory};

    ghost from_gives = { λ _ u. u ≡ NoMemory };

    fn from(_error: NoMemory) -> Unread {
        Unread::NoMemory
    }
}

impl From<NoMemory> for BodyFault {
    ghost use Rattle.std.specs.Prelude.{◌≡◌};
    ghost use Rattle.fd_json.specs.declared.fault.BodyFault.TheVariants.{NoMemory};

    ghost from_gives = { λ _ f. f ≡ NoMemory };

    fn from(_error: NoMemory) -> BodyFault {
        BodyFault::NoMemory
    }
}
