ghost use Rattle.std.specs.Prelude.{◌≡◌};
ghost use Rattle.std.specs.Option.{option_copied};
ghost use Rattle.fd_column.specs.RowNumbers.{numbered_cmp};
ghost use Rattle.fd_merge.specs.Merges.{next_of};

use crate::side::Side;
use fd_kinds::{Numbered, compare_rows};
use std::cmp::Ordering;

/// The row order, and then the order of the numbers.
fn compare_numbered(a: &Numbered, b: &Numbered) -> Ordering
    ensures { result ≡ numbered_cmp a.now b.now }
{
    compare_rows(&a.row, &b.row).then(a.number.cmp(&b.number))
}

/// The side of the next row: the right where its row is below that of the left, or there is none
/// on the left.
pub fn next_of(left: Option<&Numbered>, right: Option<&Numbered>) -> Option<Side>
    ensures { result ≡ next_of (option_copied left.entry) (option_copied right.entry) }
{
    match (left, right) {
        (None, None) => None,
        (Some(_), None) => Some(Side::Left),
        (None, Some(_)) => Some(Side::Right),
        (Some(a), Some(b)) => {
            if compare_numbered(b, a).is_lt() {
                Some(Side::Right)
            } else {
                Some(Side::Left)
            }
        }
    }
}
