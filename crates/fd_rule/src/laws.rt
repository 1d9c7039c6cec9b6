//! What makes the rule hold at every moment: the table meets it when it is made, each event by any
//! seat keeps it, and so it holds after any list of events by any seats in any order. Between two
//! steps of running threads the table is one that such a list reaches.

ghost use Rattle.std.specs.Prelude.{ℕ, List};
ghost use Rattle.fd_shelf.specs.Books.{Shelved};
ghost use Rattle.fd_rule.specs.Events.{Event, Leads, MayOpen, Reaches, opening_of};
ghost use Rattle.fd_rule.specs.Rule.{Ruled};
ghost use Rattle.fd_rule.specs.Tables.{TableState};

use fd_kinds::Held;
use fd_shelf::{book_laws, straggler_laws};

/// The table meets its rule when it is made.
pub fn opening_laws<P: Held>()
    ensures opening { (start : Shelved) (synced seats : ℕ)
        → MayOpen start synced seats
        → Ruled {P = P} P.means start seats (opening_of start synced seats) }
{
    book_laws();
}

/// Each event keeps the rule, from any state that meets it; so the rule holds after each list of
/// events by any seats in any order, from the opening on.
pub fn event_laws<P: Held>()
    ensures event { (start : Shelved) (seats : ℕ) (id : ℕ) (event : Event P) (s t : TableState P)
        → Ruled P.means start seats s
        → Leads P.means seats id event s t
        → Ruled P.means start seats t }
    ensures events { (start : Shelved) (synced seats : ℕ)
        (events : List (ℕ × Event P)) (t : TableState P)
        → MayOpen start synced seats
        → Reaches P.means seats (opening_of start synced seats) events t
        → Ruled P.means start seats t }
{
    opening_laws::<P>();
    straggler_laws();
}
