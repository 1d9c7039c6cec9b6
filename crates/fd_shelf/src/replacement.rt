ghost use Rattle.std.specs.Prelude.{◌≡◌, ◌≤◌, ◌<◌, ◌^◌, ℕ, length, map, filter, MatchOption};
ghost use Rattle.std.specs.Prelude.{MatchResult, OnOk};
ghost use Rattle.fd_shelf.specs.Books.{Each, IsSealed, SealedFirst};
ghost use Rattle.fd_shelf.specs.Steps.{is_loose};
ghost use Rattle.fd_shelf.specs.Replacement.{IsInOrder, IsFirstLoose, IsRunAt, IsChanged, IsLeast};

use fd_kinds::Held;
use std::error::Error;
use std::fmt;

/// A part that replaces no others, and why.
#[derive(Debug, Drop)]
pub enum NotReplaced<P> {
    /// The active block is this one.
    Overtaken { block: u64, part: P },
    /// The least number that lies below the range in a loose part, or in the range and in no such
    /// part.
    Changed { at: u64, part: P },
}

impl<P> fmt::Display for NotReplaced<P> {
    fn fmt<W: fmt::Write>(&self, f: &mut fmt::Formatter<W>) -> fmt::Result {
        match self {
            NotReplaced::Overtaken { block, .. } => write!(f, "the active block is {block}"),
            NotReplaced::Changed { at, .. } => write!(f, "the parts changed at number {at}"),
        }
    }
}

impl<P: fmt::Debug + Drop> Error for NotReplaced<P> {}

/// The place and the number of the first loose part.
fn first_loose<P: Held>(parts: &[P]) -> Option<(usize, u64)>
    ensures { MatchOption result
        (Each IsSealed (map P.means parts.now))
        (λ first. IsFirstLoose (map P.means parts.now) first.0 first.1) }
{
    for (at, part) in parts.iter().enumerate() {
        if !part.sealed() {
            return Some((at, part.lo()));
        }
    }
    None
}

/// The place where the parts from `lo` to `hi` begin, or the least number that is changed.
pub(crate) fn place_of_run<P: Held>(active: &[P], mark: u64, lo: u64, hi: u64) -> Result<usize, u64>
    requires order { IsInOrder (map P.means active.now) mark }
    requires bounded { mark < 2 ^ 63 }
    requires range { lo ≤ hi }
    ensures place { MatchResult result
        (λ at. IsRunAt (map P.means active.now) mark lo hi at)
        (λ at. IsLeast (IsChanged lo hi (map P.means active.now)) at) }
    ensures free { OnOk result ((n : ℕ) → IsChanged lo hi (map P.means active.now) n → ⊥) }
{
    let Some((at, first)) = first_loose(active) else {
        return Err(lo);
    };
    if first < lo {
        return Err(first);
    }
    if lo < first {
        return Err(lo);
    }
    if mark < hi {
        return Err(mark + 1);
    }
    Ok(at)
}

/// How many parts are loose. These stand behind the sealed ones, so they are counted from the end.
pub(crate) fn count_loose<P: Held>(parts: &[P]) -> u64
    requires { SealedFirst (map P.means parts.now) }
    ensures { result ≡ length (filter is_loose (map P.means parts.now)) }
{
    let mut at = parts.len();
    while at > 0 && !parts[at - 1].sealed() {
        at -= 1;
    }
    (parts.len() - at) as u64
}
