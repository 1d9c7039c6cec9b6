use fd_device::DiskFault;
use fd_lists::NoMemory;
use std::error::Error;
use std::fmt;

/// Why a keeper did not do what it was asked for.
#[derive(Clone, Copy, Debug, PartialEq, Eq)]
pub enum KeeperFault {
    /// The disk failed in this call. The keeper is stopped: the store has to be opened again.
    DiskFault,
    /// The disk failed in an earlier call, and its count of faults was this then. Nothing was
    /// done.
    Stopped { count: u64 },
    /// Want of memory. What was synced before stays, and the keeper goes on.
    NoMemory,
}

impl fmt::Display for KeeperFault {
    ghost use Rattle.std.specs.Prelude.{Some};
    ghost use Rattle.fd_keeper.specs.FaultTexts.{fault_text};

    ghost output = { λ fault. Some (fault_text fault) };

    fn fmt<W: fmt::Write>(&self, f: &mut fmt::Formatter<W>) -> fmt::Result {
        match self {
            KeeperFault::DiskFault => write!(f, "disk fault"),
            KeeperFault::Stopped { count } => write!(f, "stopped at disk fault {count}"),
            KeeperFault::NoMemory => write!(f, "no memory"),
        }
    }
}

impl Error for KeeperFault {}

/// Why something was not written.
#[derive(Clone, Copy, Debug, PartialEq, Eq)]
pub(crate) enum WriteFault {
    DiskFault,
    NoMemory,
}

impl From<DiskFault> for WriteFault {
    ghost use Rattle.std.specs.Prelude.{◌≡◌};
    ghost use Rattle.fd_keeper.specs.declared.faults.WriteFault.TheVariants.{DiskFault};

    ghost from_gives = { λ _ r. r ≡ DiskFault };

    fn from(_: DiskFault) -> WriteFault {
        WriteFault::DiskFault
    }
}

impl From<NoMemory> for WriteFault {
    ghost use Rattle.std.specs.Prelude.{◌≡◌};
    ghost use Rattle.fd_keeper.specs.declared.faults.WriteFault.TheVariants.{NoMemory};

    ghost from_gives = { λ _ r. r ≡ NoMemory };

    fn from(_: NoMemory) -> WriteFault {
        WriteFault::NoMemory
    }
}
