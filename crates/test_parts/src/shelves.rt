ghost use Rattle.std.specs.Prelude.{◌≡◌, ◌≤◌, [], IfOk};
ghost use Rattle.fd_shelf.specs.Books.{rows_in, all_parts};

use fd_kinds::{Held, NoMemory};
use fd_shelf::{InBlock, NotReplaced, Picked, Shelf, Span};
use std::alloc::Global;
use std::test::Fail;
use stubs::{Stub, loose};

#[test]
fn a_part_waits_for_the_numbers_before_it(rt: HostRuntime) -> Result<(), Fail> {
    let mut shelf: Shelf<Stub> = Shelf::new(rt.alloc());
    shelf.reserve(3)?;
    shelf.admit(loose(2));
    assert_eq!(rt; shelf.advance(), 0);
    shelf.admit(loose(1));
    assert_eq!(rt; shelf.advance(), 2);
    let both = Span {
        lo: 1,
        hi: 2,
        rows: 0,
    };
    assert!(rt; shelf.span(0) == Some(both));
    assert!(rt; shelf.span(1).is_none());
    Ok(())
}

/// A shelf with the numbers 1 and 2.
fn two_numbers(alloc: Global) -> Result<Shelf<Stub>, NoMemory>
    ensures { IfOk result (λ shelf. rows_in (all_parts shelf.book) ≡ []) }
{
    let mut shelf: Shelf<Stub> = Shelf::new(alloc);
    shelf.reserve(2)?;
    shelf.append(loose(1));
    shelf.append(loose(2));
    Ok(shelf)
}

/// What a shelf with the numbers 1 and 2 shares up to the number 1.
fn shared_upto_one(alloc: Global) -> Result<Picked<Stub>, NoMemory> {
    let mut shelf: Shelf<Stub> = Shelf::new(alloc);
    shelf.reserve(2)?;
    shelf.append(loose(1));
    shelf.append(loose(2));
    shelf.is_in_order();
    shelf.parts_upto(1)
}

/// Whether this is the part of the number 1 alone, in block 0.
fn is_first(parts: &[InBlock<Stub>]) -> bool {
    match parts {
        [one] => one.block == 0 && one.part.lo() == 1,
        _ => false,
    }
}

#[test]
fn a_shelf_tells_its_blocks_and_shares_its_parts(rt: HostRuntime) -> Result<(), Fail> {
    let shelf = two_numbers(rt.alloc())?;
    assert!(rt; shelf.active() == 0 && shelf.next_block() == 0 && shelf.mark() == 2);
    let picked = shared_upto_one(rt.alloc())?;
    assert!(rt; is_first(picked.as_slice()));
    Ok(())
}

fn try_replace(
    shelf: &mut Shelf<Stub>,
    block: u64,
    lo: u64,
    hi: u64,
) -> Result<(), NotReplaced<Stub>>
    requires stub { rows_in (all_parts shelf.old.book) ≡ [] }
    requires range { lo ≤ hi }
{
    let part = Stub {
        lo,
        hi,
        sealed: true,
    };
    shelf.replace(block, lo, hi, part)
}

/// Which numbers the loose parts of a shelf have, where one sealed part has taken this range.
fn loose_after(alloc: Global, lo: u64, hi: u64) -> Result<Option<u64>, NoMemory>
    requires { lo ≤ hi }
{
    let mut shelf = two_numbers(alloc)?;
    if try_replace(&mut shelf, 0, lo, hi).is_err() {
        return Err(NoMemory);
    }
    let left = shelf.level0(2)?;
    if left.len() as u64 != shelf.loose() {
        return Err(NoMemory);
    }
    Ok(match left.get(0) {
        Some(first) => Some(first.part.lo()),
        None => None,
    })
}

#[test]
fn one_sealed_part_takes_the_place_of_loose_ones(rt: HostRuntime) -> Result<(), Fail> {
    assert!(rt; loose_after(rt.alloc(), 1, 2)?.is_none());
    assert!(rt; loose_after(rt.alloc(), 1, 1)? == Some(2));
    Ok(())
}

/// Why a sealed part of this range is not put into a block: the active block, or the number that
/// stands against it.
fn refusal(alloc: Global, block: u64, lo: u64, hi: u64) -> Result<Option<(bool, u64)>, NoMemory>
    requires { lo ≤ hi }
{
    let mut shelf = two_numbers(alloc)?;
    Ok(match try_replace(&mut shelf, block, lo, hi) {
        Ok(()) => None,
        Err(NotReplaced::Overtaken { block, .. }) => Some((true, block)),
        Err(NotReplaced::Changed { at, .. }) => Some((false, at)),
    })
}

#[test]
fn what_stands_against_a_part_is_told(rt: HostRuntime) -> Result<(), Fail> {
    // Another block, a number below the range, and one of the range that no part has.
    assert!(rt; refusal(rt.alloc(), 1, 1, 2)? == Some((true, 0)));
    assert!(rt; refusal(rt.alloc(), 0, 2, 2)? == Some((false, 1)));
    assert!(rt; refusal(rt.alloc(), 0, 1, 4)? == Some((false, 3)));
    Ok(())
}
