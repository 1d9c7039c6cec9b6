ghost use Rattle.std.specs.Prelude.{◌≡◌, ◌+◌, ◌<◌, drop, length, slice_get, IfOk, All};
ghost use Rattle.std.specs.Option.{option_copied};
ghost use Rattle.fd_column.specs.RowNumbers.{IsNumber};
ghost use Rattle.fd_merge.specs.Merges.{MovesFirst};

use fd_column::{ColumnPart, Columns, PartBuilder};
use fd_kinds::{NoMemory, Numbered};
use std::marker::Model;

/// The row at a place, none behind the last.
#[tactic(auto, using(std::proofs::lemmas::Option::slice_get_past))]
fn row_at(part: &ColumnPart, at: usize) -> Result<Option<Numbered>, NoMemory>
    ensures { IfOk result (λ row. row ≡ slice_get part.now at) }
{
    if at < part.len() {
        Ok(Some(part.row(at)?))
    } else {
        Ok(None)
    }
}

/// The place behind a place before the end.
fn next_place(at: usize, count: usize) -> usize
    requires { at < count }
    ensures { result ≡ at + 1 }
{
    at + 1
}

/// The rows of a part from a place on, which contracts see as the list of them. The first of them
/// is there as a row.
#[derive(Drop)]
pub struct Cursor<'a> {
    part: &'a ColumnPart,
    count: usize,
    at: usize,
    first: Option<Numbered>,
}

impl<'a> Model for Cursor<'a> {
    ghost use Rattle.std.specs.Prelude.{◌≡◌, List, drop, length, slice_get};
    ghost use Rattle.fd_kinds.specs.declared.row.Numbered.{Numbered};

    ghost Value = { List Numbered };

    ghost view = { λ c. drop c.at c.part.now };

    ghost invariant = { λ c.
        (c.count ≡ length c.part.now) × (c.first ≡ slice_get c.part.now c.at) };
}

impl<'a> Cursor<'a> {
    /// The rows from a place on.
    pub fn from_place(part: &'a ColumnPart, at: usize) -> Result<Cursor<'a>, NoMemory>
        ensures { IfOk result (λ cursor. cursor ≡ drop at part.now) }
    {
        let count = part.len();
        let first = row_at(part, at)?;
        Ok(Cursor {
            part,
            count,
            at,
            first,
        })
    }

    /// The first row.
    pub fn first(&self) -> Option<&Numbered>
        ensures { option_copied result ≡ slice_get self.now 0 }
    {
        self.first.as_ref()
    }

    /// Moves the first row to the end of a builder's.
    pub fn move_first(self, builder: PartBuilder) -> Result<(PartBuilder, Cursor<'a>), NoMemory>
        requires some { 0 < length self }
        requires numbers { All IsNumber self }
        ensures { IfOk result (λ moved. MovesFirst builder self.entry moved.0 moved.1) }
    {
        let Cursor {
            part,
            count,
            at,
            first,
        } = self;
        part.short();
        let row = first.unwrap();
        let next = next_place(at, count);
        let builder = builder.with_row(&row)?;
        Ok((builder, Cursor::from_place(part, next)?))
    }
}
