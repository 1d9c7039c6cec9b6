ghost use Rattle.std.specs.Prelude.{◌≡◌, ◌≤◌, ◌<◌, ◌+◌, ℕ, length, map};
ghost use Rattle.std.specs.VecDeque.{deque_len, deque_capacity};
ghost use Rattle.std.specs.List.{insert};
ghost use Rattle.fd_kinds.specs.Parts.{PartMeaning};
ghost use Rattle.fd_shelf.specs.Books.{Waits};
ghost use Rattle.fd_shelf.specs.Steps.{placed};

use crate::room::insert_at;
use fd_kinds::Held;
use std::collections::VecDeque;

/// The place of a number among parts whose numbers rise. Numbers mostly come in order, so it is
/// looked for from the end.
fn place_of<P: Held>(waiting: &VecDeque<P>, number: u64) -> usize
    requires { (above : ℕ) × Waits above (map P.means waiting.now.items) }
    ensures bound { result ≤ length waiting.now.items }
    ensures place { (part : PartMeaning) → part.lo ≡ number
        → insert (map P.means waiting.now.items) result part
        ≡ placed part (map P.means waiting.now.items) }
{
    let mut at = waiting.len();
    while at > 0 && number < waiting[at - 1].lo() {
        at -= 1;
    }
    at
}

/// Adds a part at the place of its number, where the list has a place for it.
pub(crate) fn wait<P: Held>(waiting: &mut VecDeque<P>, part: P)
    requires rising { (above : ℕ) × Waits above (map P.means waiting.old.items) }
    requires room { deque_len waiting.old < deque_capacity waiting.old }
    ensures parts { map P.means waiting.new.items
        ≡ placed (P.means part) (map P.means waiting.old.items) }
    ensures len { deque_len waiting.new ≡ deque_len waiting.old + 1 }
    ensures capacity { deque_capacity waiting.old ≤ deque_capacity waiting.new }
{
    let at = place_of(waiting, part.lo());
    insert_at(waiting, at, part);
}
