ghost use Rattle.std.specs.Prelude.{◌≡◌, ◌++◌, Some, IfOk, IsSorted, IsPermutation, All};
ghost use Rattle.fd_column.specs.RowNumbers.{numbered_cmp, IsNumber};
ghost use Rattle.fd_merge.specs.Merges.{next_side, Ends, Starts, Turns};

use crate::cursor::Cursor;
use crate::order::next_of;
use crate::side::Side;
use fd_column::{ColumnPart, PartBuilder};
use fd_kinds::{NoMemory, row_order_laws};
use std::alloc::Global;

/// The rows that are done, and those that are left of both parts.
#[derive(Drop)]
struct Merger<'a> {
    done: PartBuilder,
    left: Cursor<'a>,
    right: Cursor<'a>,
}

/// The next row is the first of the left.
fn take_left<'a>(state: Merger<'a>) -> Result<Merger<'a>, NoMemory>
    requires side { next_side state.left state.right ≡ Some Side.Left }
    requires left_numbers { All IsNumber state.left }
    requires right_numbers { All IsNumber state.right }
    ensures { IfOk result (λ after.
        Turns state.entry.done state.entry.left state.entry.right after.done after.left
        after.right) }
{
    let Merger { done, left, right } = state;
    let (done, left) = left.move_first(done)?;
    Ok(Merger { done, left, right })
}

/// The next row is the first of the right.
fn take_right<'a>(state: Merger<'a>) -> Result<Merger<'a>, NoMemory>
    requires side { next_side state.left state.right ≡ Some Side.Right }
    requires left_numbers { All IsNumber state.left }
    requires right_numbers { All IsNumber state.right }
    ensures { IfOk result (λ after.
        Turns state.entry.done state.entry.left state.entry.right after.done after.left
        after.right) }
{
    row_order_laws();
    let Merger { done, left, right } = state;
    let (done, right) = right.move_first(done)?;
    Ok(Merger { done, left, right })
}

/// The next row is the first of a side.
fn turn<'a>(state: Merger<'a>, side: Side) -> Result<Merger<'a>, NoMemory>
    requires side { next_side state.left state.right ≡ Some side }
    requires left_numbers { All IsNumber state.left }
    requires right_numbers { All IsNumber state.right }
    ensures { IfOk result (λ after.
        Turns state.entry.done state.entry.left state.entry.right after.done after.left
        after.right) }
{
    match side {
        Side::Left => take_left(state),
        Side::Right => take_right(state),
    }
}

/// No rows are done yet.
fn started<'a>(
    alloc: Global,
    left: &'a ColumnPart,
    right: &'a ColumnPart,
) -> Result<Merger<'a>, NoMemory>
    ensures { IfOk result (λ state. Starts left.now right.now state.done state.left state.right) }
{
    Ok(Merger {
        left: Cursor::from_place(left, 0)?,
        right: Cursor::from_place(right, 0)?,
        done: PartBuilder::new(alloc),
    })
}

/// The rows that are done, once nothing is left.
fn done<'a>(state: Merger<'a>) -> PartBuilder
    ensures { result ≡ state.entry.done }
{
    let Merger {
        done,
        left: _,
        right: _,
    } = state;
    done
}

/// The side of the next row, none where nothing is left.
fn side_of<'a>(state: &Merger<'a>) -> Option<Side>
    ensures { result ≡ next_side state.now.left state.now.right }
{
    next_of(state.left.first(), state.right.first())
}

/// Takes the rows of both sides until nothing is left.
fn merged<'a>(state: Merger<'a>) -> Result<Merger<'a>, NoMemory>
    requires left_numbers { All IsNumber state.left }
    requires right_numbers { All IsNumber state.right }
    ensures { IfOk result (λ after.
        Ends state.entry.done state.entry.left state.entry.right after.done) }
{
    let mut state = state;
    while let Some(side) = side_of(&state) {
        state = turn(state, side)?;
    }
    Ok(state)
}

/// All numbered rows of both parts, each as often as there, in the row order and then by number.
/// One pass, in which no more than one row of each part is made at a time.
pub fn merge(alloc: Global, left: &ColumnPart, right: &ColumnPart) -> Result<ColumnPart, NoMemory>
    ensures rows { IfOk result (λ part. IsPermutation (left.now ++ right.now) part) }
    ensures sorted { IfOk result (λ part. IsSorted numbered_cmp part) }
{
    left.in_order();
    right.in_order();
    let state = merged(started(alloc, left, right)?)?;
    done(state).finish()
}
