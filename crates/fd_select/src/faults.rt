ghost use Rattle.std.specs.Prelude.{◌≡◌};

use std::error::Error;
use std::fmt;

/// Why a text is no selector.
#[derive(Debug, Clone, Copy, PartialEq, Eq)]
pub enum SelectFault {
    /// The text before the first `{` has not five parts, nor six with the last `delta`.
    BadType,
    /// The type is right, and what stands in braces is not. `at` is the length, in bytes, of the
    /// text's longest prefix that is also a prefix of some selector: the place of the first byte
    /// that cannot stand there, or the text's length where the text ends too early.
    BadMatcher { at: usize },
    /// Want of memory.
    NoMemory,
}

impl fmt::Display for SelectFault {
    fn fmt<W: fmt::Write>(&self, f: &mut fmt::Formatter<W>) -> fmt::Result {
        match self {
            SelectFault::BadType => write!(f, "no profile type"),
            SelectFault::BadMatcher { at } => write!(f, "no matcher at byte {at}"),
            SelectFault::NoMemory => write!(f, "out of memory"),
        }
    }
}

impl Error for SelectFault {}

impl From<fd_kinds::NoMemory> for SelectFault {
    ghost use Rattle.fd_select.specs.declared.faults.SelectFault.TheVariants.{NoMemory};

    ghost from_gives = { λ _ fault. fault ≡ NoMemory };

    fn from(_error: fd_kinds::NoMemory) -> SelectFault {
        SelectFault::NoMemory
    }
}
