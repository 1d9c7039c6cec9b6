use fd_device::{DiskFault, FileId};
use fd_lists::NoMemory;
use std::alloc::AllocError;

/// Why a store was not opened.
#[derive(Clone, Copy, Debug, PartialEq, Eq)]
pub enum OpenCause {
    /// The disk failed in this call.
    DiskFault,
    /// The first damaged place, in the order of the blocks: the open gate of a seal, or the open
    /// gate in a log behind which no frame stands that may stand there. Nothing was written.
    Damaged { file: FileId, at: u64 },
    /// Want of memory. Nothing was written.
    NoMemory,
}

impl From<DiskFault> for OpenCause {
    ghost use Rattle.std.specs.Prelude.{◌≡◌};
    ghost use Rattle.fd_open.specs.declared.cause.OpenCause.TheVariants.{DiskFault};

    ghost from_gives = { λ _ r. r ≡ DiskFault };

    fn from(_: DiskFault) -> OpenCause {
        OpenCause::DiskFault
    }
}

impl From<NoMemory> for OpenCause {
    ghost use Rattle.std.specs.Prelude.{◌≡◌};
    ghost use Rattle.fd_open.specs.declared.cause.OpenCause.TheVariants.{NoMemory};

    ghost from_gives = { λ _ r. r ≡ NoMemory };

    fn from(_: NoMemory) -> OpenCause {
        OpenCause::NoMemory
    }
}
