ghost use Rattle.fd_pprof.specs.Faults.{IsFaultOf};

use fd_kinds::NoMemory;
use fd_proto::ProtoFault;
use std::error::Error;
use std::fmt;

/// Why bytes are no profile: the first of these that holds.
#[derive(Clone, Copy, Debug, PartialEq, Eq)]
pub enum ProfileFault {
    /// The bytes begin as gzip does.
    Compressed,
    /// The wire format fails at the place `at`, counted in bytes from the first.
    Wire { at: usize },
    /// The string table does not begin with the empty text.
    StringZero,
    /// A text index is negative, or not below the length of the string table.
    StringIndex,
    /// A sample has another number of values than there are sample types.
    ValueCount,
    /// A sample names the location 0, or one that is not there.
    UnknownLocation,
    /// A location names a mapping that is not there, other than 0.
    UnknownMapping,
    /// A line names a function that is not there, other than 0.
    UnknownFunction,
    /// Two mappings, two locations or two functions have one id.
    RepeatedId,
    /// A text of the string table is not UTF-8.
    NotUtf8,
    /// The frames of a sample, each with four bytes more, have more than 1,048,576 bytes
    /// (`MOST_STACK_BYTES`).
    TooDeep,
    /// A text of the string table has more than 1,048,576 bytes (`MOST_TEXT_BYTES`).
    LongText,
    NoMemory,
}

/// What a refusal without a place says.
fn words_of(fault: ProfileFault) -> &'static str {
    match fault {
        ProfileFault::Compressed => "the profile is packed by gzip",
        ProfileFault::Wire { .. } => "the wire format fails",
        ProfileFault::StringZero => "the string table does not begin with the empty text",
        ProfileFault::StringIndex => "a text index lies outside the string table",
        ProfileFault::ValueCount => "a sample has more or fewer values than there are types",
        ProfileFault::UnknownLocation => "a sample names a location that is not there",
        ProfileFault::UnknownMapping => "a location names a mapping that is not there",
        ProfileFault::UnknownFunction => "a line names a function that is not there",
        ProfileFault::RepeatedId => "an id stands twice",
        ProfileFault::NotUtf8 => "a text is not UTF-8",
        ProfileFault::TooDeep => "the frames of a sample are too long",
        ProfileFault::LongText => "a text is too long",
        ProfileFault::NoMemory => "out of memory",
    }
}

impl fmt::Display for ProfileFault {
    fn fmt<W: fmt::Write>(&self, f: &mut fmt::Formatter<W>) -> fmt::Result {
        match self {
            ProfileFault::Wire { at } => write!(f, "the wire format fails at byte {at}"),
            fault => f.write_str(words_of(*fault)),
        }
    }
}

impl Error for ProfileFault {}

impl From<NoMemory> for ProfileFault {
    ghost use Rattle.std.specs.Prelude.{◌≡◌};
    ghost use Rattle.fd_pprof.specs.declared.fault.ProfileFault.TheVariants.{NoMemory};

    ghost from_gives = { λ _ e. e ≡ NoMemory };

    fn from(_error: NoMemory) -> ProfileFault {
        ProfileFault::NoMemory
    }
}

/// The fault of a profile whose messages can't be read.
pub(crate) fn of_messages(fault: ProtoFault) -> ProfileFault
    ensures { IsFaultOf fault result }
{
    match fault {
        ProtoFault::Wire { at } => ProfileFault::Wire { at },
        ProtoFault::NoMemory => ProfileFault::NoMemory,
    }
}
