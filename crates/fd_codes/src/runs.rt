ghost use Rattle.std.specs.Prelude.{◌≡◌, ◌<◌, ◌≤◌, List, ℕ, IfOk, Ok};
ghost use Rattle.fd_hybrid.specs.Format.{IsSpelling, Fit};
ghost use Rattle.fd_hybrid.specs.Refusals.{Spells};
ghost use Rattle.fd_pages.specs.Pages.{Gives};

use fd_hybrid::{HybridFault, Values, pack, unpack};
use fd_lists::{Bytes, NoMemory};
use fd_pages::PageFault;
use std::alloc::Global;

/// Values of `width` bits in hybrid runs.
pub(crate) fn runs_of(alloc: Global, values: &[u32], width: u8) -> Result<Bytes, NoMemory>
    requires least { 0 < width }
    requires most { width ≤ 32 }
    requires fit { Fit width values.now }
    ensures { IfOk result (λ runs. IsSpelling width values.now runs) }
{
    match pack(alloc, values, width) {
        Ok(runs) => Ok(Bytes::from_vec(runs.into_vec())),
        Err(_) => Err(NoMemory),
    }
}

/// The values of `width` bits that hybrid runs spell, of which there are `count`.
pub(crate) fn values_in(
    alloc: Global,
    runs: &[u8],
    width: u8,
    count: usize,
) -> Result<Values, PageFault>
    requires least { 0 < width }
    requires most { width ≤ 32 }
    ensures found { IfOk result (Spells width count runs.now) }
    ensures only { (values : List ℕ) → Spells width count runs.now values
        → Gives result (Ok values) }
{
    match unpack(alloc, runs, width, count) {
        Ok(values) => Ok(values),
        Err(HybridFault::NoMemory) => Err(PageFault::NoMemory),
        Err(_) => Err(PageFault::BadPage),
    }
}
