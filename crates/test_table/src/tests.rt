use crate::seats::{Four, four_seats};
use crate::{begin, end, end_both, limit, list, pin, report, seal, sweep, write_both, write_swept};
use fd_kinds::Held;
use fd_rule::{Base, Made, Seat, leave, load_synced, split};
use fd_shelf::Shelf;
use std::test::Fail;
use stubs::Stub;

#[test]
fn a_batch_waits_in_the_book_for_the_number_before_it(rt: HostRuntime) -> Result<(), Fail> {
    let Ok(made) = Base::make(rt.alloc(), Shelf::new(rt.alloc()), 0, 4) else {
        return Err("no memory".into());
    };
    let Made { base, first } = made;
    let Four {
        keeper: _,
        compactor: _,
        mut early,
        mut late,
    } = four_seats(&base, first);
    let one = begin(&mut early).ok_or("the lane of seat 2")?;
    let two = begin(&mut late).ok_or("the lane of seat 3")?;
    assert!(rt; one.lo() == 1 && two.lo() == 2);
    end(&mut late, two);
    assert!(rt; sweep(&mut late) == Some(0));
    end(&mut early, one);
    assert!(rt; sweep(&mut early) == Some(2));
    Ok(())
}

#[test]
fn no_limit_passes_a_pin(rt: HostRuntime) -> Result<(), Fail> {
    let Ok(made) = Base::make(rt.alloc(), Shelf::new(rt.alloc()), 0, 4) else {
        return Err("no memory".into());
    };
    let Made { base, first } = made;
    let Four {
        mut keeper,
        mut compactor,
        mut early,
        mut late,
    } = four_seats(&base, first);
    assert_eq!(rt; write_swept(&mut late, 3), 3);
    let w = pin(&mut early);
    assert_eq!(rt; w, 3);
    assert_eq!(rt; write_swept(&mut late, 4), 7);
    assert_eq!(rt; limit(&mut compactor), 3);
    assert!(rt; seal(&mut compactor) == Some(3));
    assert!(rt; list(&mut early, w) == Some(3));
    leave(&mut early);
    assert_eq!(rt; limit(&mut compactor), 7);
    assert_eq!(rt; report(&mut keeper), 7);
    assert_eq!(rt; load_synced(&mut late), 7);
    Ok(())
}

#[test]
fn two_threads_draw_and_land_a_thousand_numbers_each(rt: HostRuntime) -> Result<(), Fail> {
    let Ok(made) = Base::make(rt.alloc(), Shelf::new(rt.alloc()), 0, 2) else {
        return Err("no memory".into());
    };
    let Made { base, first } = made;
    let mut left = Seat::enter(&base, first);
    let right = split(&mut left).leave();
    let (left, right) = write_both(&rt, &base, left.leave(), right, 1000);
    let shelf = end_both(base, left, right).ok_or("a lane is filled")?;
    assert_eq!(rt; shelf.mark(), 2000);
    Ok(())
}
