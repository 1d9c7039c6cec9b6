ghost use Rattle.std.specs.Prelude.{◌≡◌, ◌<◌, ◌^◌, ◌++◌, ◌∷◌, [], Some, None, IfOk, IfSome, Decides, IsSorted, length, slice_get, ◌-◌};
ghost use Rattle.std.specs.Option.{option_copied};
ghost use Rattle.fd_column.specs.RowNumbers.{numbered_cmp};
ghost use Rattle.fd_column.specs.Stacks.{AreShort};
ghost use Rattle.fd_parquet.specs.Rows.{MayFollow};

use fd_column::{ColumnPart, PartBuilder};
use fd_kinds::{NoMemory, Numbered, compare_rows};
use std::alloc::Global;
use std::marker::Model;

/// Rows that are put in columns one after the other, none below the one before it, with a copy of
/// the last; contracts see them as the list of the rows so far.
#[derive(Drop)]
pub(crate) struct RowBuilder {
    rows: PartBuilder,
    last: Option<Numbered>,
}

impl Model for RowBuilder {
    ghost use Rattle.std.specs.Prelude.{◌≡◌, ◌-◌, List, length, slice_get};
    ghost use Rattle.fd_kinds.specs.declared.row.Numbered.{Numbered};

    ghost Value = { List Numbered };

    ghost view = { λ r. r.rows };

    ghost invariant = { λ r. r.last ≡ slice_get r.rows (length r.rows - 1) };
}

impl RowBuilder {
    /// No rows, which take no memory.
    pub(crate) fn new(alloc: Global) -> RowBuilder
        ensures { result ≡ [] }
    {
        RowBuilder {
            rows: PartBuilder::new(alloc),
            last: None,
        }
    }

    /// Whether a row may stand behind the last one.
    fn may_take(&self, next: &Numbered) -> bool
        ensures { Decides result (MayFollow (slice_get self.now (length self.now - 1)) next.now) }
    {
        match &self.last {
            Some(last) => compare_rows(&next.row, &last.row)
                .then(next.number.cmp(&last.number))
                .is_ge(),
            None => true,
        }
    }

    /// The rows and one more behind them.
    fn with_last(self, next: Numbered) -> Result<RowBuilder, NoMemory>
        requires number { next.number < 2 ^ 63 }
        requires short { AreShort next.row.stack }
        ensures { IfOk result (λ all. all ≡ self ++ next ∷ []) }
    {
        let RowBuilder { rows, last: _ } = self;
        let rows = rows.with_row(&next)?;
        Ok(RowBuilder {
            rows,
            last: Some(next),
        })
    }

    /// The rows and one more, none where that may not stand behind them.
    pub(crate) fn with_next(self, next: Numbered) -> Result<Option<RowBuilder>, NoMemory>
        requires number { next.number < 2 ^ 63 }
        requires short { AreShort next.row.stack }
        ensures pushed { IfOk result (λ more. IfSome more (λ all. all ≡ self ++ next ∷ [])) }
        ensures follows { IfOk result
            (λ more. IfSome more (λ _. MayFollow (slice_get self (length self - 1)) next)) }
        ensures none { IfOk result
            (λ more. more ≡ None → MayFollow (slice_get self (length self - 1)) next → ⊥) }
    {
        if !self.may_take(&next) {
            return Ok(None);
        }
        Ok(Some(self.with_last(next)?))
    }

    /// The part of these rows.
    pub(crate) fn finish(self) -> Result<ColumnPart, NoMemory>
        requires { IsSorted numbered_cmp self }
        ensures { IfOk result (λ part. part ≡ self) }
    {
        let RowBuilder { rows, last: _ } = self;
        rows.finish()
    }
}
