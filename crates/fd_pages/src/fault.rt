use fd_lists::NoMemory;
use std::error::Error;
use std::fmt;

/// Why no page is read.
#[derive(Clone, Copy, Debug, PartialEq, Eq)]
pub enum PageFault {
    /// No front of the bytes is the page of so many cells.
    BadPage,
    NoMemory,
}

impl fmt::Display for PageFault {
    fn fmt<W: fmt::Write>(&self, f: &mut fmt::Formatter<W>) -> fmt::Result {
        match self {
            PageFault::BadPage => write!(f, "no data page of so many cells"),
            PageFault::NoMemory => write!(f, "out of memory"),
        }
    }
}

impl Error for PageFault {}

impl From<NoMemory> for PageFault {
    ghost use Rattle.std.specs.Prelude.{◌≡◌};
    ghost use Rattle.fd_pages.specs.declared.fault.PageFault.TheVariants.{NoMemory};

    ghost from_gives = { λ _ e. e ≡ NoMemory };

    fn from(_error: NoMemory) -> PageFault {
        PageFault::NoMemory
    }
}
