ghost use Rattle.std.specs.Prelude.{◌≡◌};

use fd_lists::NoMemory;
use std::alloc::AllocError;
use std::error::Error;
use std::fmt;

/// Why words are no command line.
#[derive(Debug, Clone, Copy, PartialEq, Eq)]
pub enum WordsFault {
    /// They name no command, or what stands behind its name is not of its form.
    BadWords,
    /// Want of memory.
    NoMemory,
}

impl fmt::Display for WordsFault {
    fn fmt<W: fmt::Write>(&self, f: &mut fmt::Formatter<W>) -> fmt::Result {
        match self {
            WordsFault::BadWords => write!(f, "bad words"),
            WordsFault::NoMemory => write!(f, "out of memory"),
        }
    }
}

impl Error for WordsFault {}

impl From<NoMemory> for WordsFault {
    ghost use Rattle.fd_words.specs.declared.faults.WordsFault.TheVariants.{NoMemory as memory};

    ghost from_gives = { λ _ fault. fault ≡ memory };

    fn from(_error: NoMemory) -> WordsFault {
        WordsFault::NoMemory
    }
}

impl From<AllocError> for WordsFault {
    ghost use Rattle.fd_words.specs.declared.faults.WordsFault.TheVariants.{NoMemory as memory};

    ghost from_gives = { λ _ fault. fault ≡ memory };

    fn from(_error: AllocError) -> WordsFault {
        WordsFault::NoMemory
    }
}
