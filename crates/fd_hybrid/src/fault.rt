use crate::NoMemory;
use std::error::Error;
use std::fmt;

/// Why bytes are no spelling of so many values.
#[derive(Clone, Copy, Debug, PartialEq, Eq)]
pub enum HybridFault {
    /// The bytes end too early: with more bytes behind them they would spell so many values.
    Cut,
    /// None of the others: whatever follows, the bytes spell no such values.
    BadRun,
    /// Behind whole runs stands a whole repeated run whose value has more bits than the width.
    OverWidth,
    NoMemory,
}

impl fmt::Display for HybridFault {
    fn fmt<W: fmt::Write>(&self, f: &mut fmt::Formatter<W>) -> fmt::Result {
        match self {
            HybridFault::Cut => write!(f, "the bytes end within hybrid runs"),
            HybridFault::BadRun => write!(f, "no hybrid runs of so many values"),
            HybridFault::OverWidth => write!(
                f,
                "a value in hybrid runs has more bits than the width"
            ),
            HybridFault::NoMemory => write!(f, "out of memory"),
        }
    }
}

impl Error for HybridFault {}

impl From<NoMemory> for HybridFault {
    ghost use Rattle.std.specs.Prelude.{◌≡◌};
    ghost use Rattle.fd_hybrid.specs.declared.fault.HybridFault.TheVariants.{NoMemory};

    ghost from_gives = { λ _ e. e ≡ NoMemory };

    fn from(_error: NoMemory) -> HybridFault {
        HybridFault::NoMemory
    }
}
