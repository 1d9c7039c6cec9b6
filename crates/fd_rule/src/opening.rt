//! How a table is made.
ghost use Rattle.std.specs.Prelude.{◌≡◌, ◌≤◌, ◌<◌, [], ◌∷◌, IfOk, IfErr};
ghost use Rattle.fd_rule.specs.Events.{MayOpen};
ghost use Rattle.fd_rule.specs.Seats.{base_seats, base_shelf, base_table};
ghost use Rattle.fd_rule.specs.Seats.{pass_seats, pass_table, pass_view};
ghost use Rattle.fd_rule.specs.Slots.{Opens, HandedBack, rest_of};
ghost use Rattle.fd_rule.specs.Tables.{empties};
ghost use Rattle.fd_rule.specs.View.{first, first_words};
ghost use Rattle.fd_rule.specs.declared.limits.TheConstants.{MOST_SEATS};
ghost use Rattle.fd_rule.specs.declared.slot.SlotValue.TheVariants.{Home};

use crate::base::{Base, Opening};
use crate::ending::home_shelf;
use crate::laws::opening_laws;
use crate::made::{Made, NotMade};
use crate::pass::Pass;
use crate::slot::SlotValue;
use atomic_table::Table;
use fd_kinds::{Held, NoMemory};
use fd_shelf::Shelf;
use std::alloc::{AllocFailed, Global};
use std::snapshot::Snapshot;

#[tactic(auto, using(crate::proofs::Opens::idle_more))]
fn opening_words(alloc: Global, mark: u64, synced: u64, seats: u32) -> Result<Vec<u64>, NoMemory>
    ensures { IfOk result (λ words. words.items ≡ first_words mark synced seats) }
{
    let mut words = Vec::new(alloc);
    words.push(mark)?;
    words.push(mark)?;
    words.push(0)?;
    words.push(synced)?;
    words.push(mark)?;
    for at in 0..seats {
        let _ = at;
        words.push(0)?;
        words.push(u64::MAX)?;
    }
    Ok(words)
}

/// The shelf of slots that begin with it.
fn opening_shelf<P: Held>(slots: Vec<SlotValue<P>>) -> Shelf<P>
    requires { Opens slots.items }
    ensures { slots.items ≡ Home result ∷ rest_of slots.items }
{
    let mut slots = slots;
    slots.truncate(1);
    match slots.pop() {
        Some(first) => home_shelf(first),
        None => unreachable!(),
    }
}

#[tactic(auto, using(crate::proofs::Opens::empties_more))]
fn opening_slots<P: Held>(
    alloc: Global,
    shelf: Shelf<P>,
    seats: u32,
) -> Result<Vec<SlotValue<P>>, Shelf<P>>
    ensures ok { IfOk result (λ slots. slots.items ≡ Home shelf ∷ empties seats) }
    ensures err { IfErr result (λ back. back ≡ shelf) }
{
    let mut slots = Vec::new(alloc);
    if let Err(AllocFailed { value }) = slots.push(SlotValue::Home(shelf)) {
        return Err(home_shelf(value));
    }
    for at in 0..seats {
        let _ = at;
        if let Err(_) = slots.push(SlotValue::Empty) {
            return Err(opening_shelf(slots));
        }
    }
    Ok(slots)
}

/// The base over these words and slots.
fn base_of<P: Held>(
    alloc: Global,
    words: Vec<u64>,
    slots: Vec<SlotValue<P>>,
    opening: Opening<P>,
    count: u32,
) -> Result<Made<P>, NotMade<P>>
    requires may { MayOpen opening.shelf.value opening.synced opening.seats }
    requires count { count ≡ opening.seats }
    requires words { words.items
        ≡ first_words opening.shelf.value.mark opening.synced opening.seats }
    requires slots { slots.items ≡ Home opening.shelf.value ∷ empties opening.seats }
    ensures base { IfOk result (λ made. pass_table made.first ≡ base_table made.base) }
    ensures count { IfOk result (λ made.
        (pass_seats made.first ≡ base_seats made.base) × (base_seats made.base ≡ count)) }
    ensures first { IfOk result (λ made.
        pass_view made.first ≡ first opening.shelf.value opening.synced) }
    ensures opening { IfOk result (λ made. base_shelf made.base ≡ opening.shelf.value) }
    ensures err { IfErr result (λ why. HandedBack opening.shelf.value why) }
{
    opening_laws::<P>();
    match Table::new(alloc, words.as_slice(), slots, &opening) {
        Ok((board, seat)) => Ok(Made {
            base: Base { board, count },
            first: Pass {
                badge: seat.into_badge(),
                number: 0,
                next: 1,
                splits: true,
                scan: 0,
                count,
            },
        }),
        Err(refused) => Err(NotMade::NoMemory {
            shelf: opening_shelf(refused.slots),
        }),
    }
}

impl<P: Held> Base<P> {
    /// A base over a shelf without stragglers, for 1 to `MOST_SEATS` seats. `synced` is the
    /// greatest number reported synced so far.
    pub fn make(
        alloc: Global,
        shelf: Shelf<P>,
        synced: u64,
        seats: u32,
    ) -> Result<Made<P>, NotMade<P>>
        requires seats { (0 < seats) × (seats ≤ MOST_SEATS) }
        requires synced { synced ≤ shelf.mark }
        requires stragglers { shelf.book.stragglers ≡ [] }
        ensures base { IfOk result (λ made. pass_table made.first ≡ base_table made.base) }
        ensures count { IfOk result (λ made.
            (pass_seats made.first ≡ base_seats made.base) × (base_seats made.base ≡ seats)) }
        ensures first { IfOk result (λ made. pass_view made.first ≡ first shelf synced) }
        ensures opening { IfOk result (λ made. base_shelf made.base ≡ shelf) }
        ensures err { IfErr result (λ why. HandedBack shelf why) }
    {
        let mark = shelf.mark();
        shelf.is_in_order();
        let opening = Opening {
            shelf: Snapshot::of(&shelf),
            synced,
            seats: seats as u64,
        };
        let words = match opening_words(alloc, mark, synced, seats) {
            Ok(words) => words,
            Err(NoMemory) => return Err(NotMade::NoMemory { shelf }),
        };
        let slots = match opening_slots(alloc, shelf, seats) {
            Ok(slots) => slots,
            Err(shelf) => return Err(NotMade::NoMemory { shelf }),
        };
        base_of(alloc, words, slots, opening, seats)
    }
}
