ghost use Rattle.std.specs.Prelude.{◌≡◌, Some, IfOk, IfErr, refl};
ghost use Rattle.fd_kinds.specs.Labels.{are_labels};
ghost use Rattle.fd_wal.specs.Reading.{Reads, Finds, Fails, checked_labels, numbers_at};
ghost use Rattle.fd_wal.specs.Reading.{text_at, pair_at, labels_at, stack_at, row_at};
ghost use Rattle.fd_wal.specs.Reading.{least_text, least_pair, least_row};

use crate::cursor::{Cursor, Spelled};
use crate::fault::ReadFault;
use fd_kinds::{Labels, Pair, Pairs, Row, Shared, Stack, Text};
use std::alloc::Global;

impl Spelled for Text {
    ghost read_at = { text_at };

    ghost least = { least_text };

    fn least() -> u32 {
        4
    }

    fn read(alloc: Global, cursor: &mut Cursor) -> Result<Text, ReadFault> {
        cursor.text(alloc)
    }
}

impl Spelled for Pair {
    ghost read_at = { pair_at };

    ghost least = { least_pair };

    fn least() -> u32 {
        8
    }

    #[tactic(auto, unfolding(crate::specs::Reading::pair_at))]
    fn read(alloc: Global, cursor: &mut Cursor) -> Result<Pair, ReadFault> {
        Ok(Pair {
            name: cursor.text(alloc)?,
            value: cursor.text(alloc)?,
        })
    }
}

/// The labels of pairs, whose names have to rise strictly.
#[tactic(auto, using(crate::proofs::Rows::shared_some, crate::proofs::Rows::shared_none))]
fn labels_of(pairs: Pairs) -> Result<Labels, ReadFault>
    ensures { Finds result (checked_labels pairs (are_labels pairs) refl) }
{
    match Labels::checked(Shared::of(pairs)?) {
        Some(labels) => Ok(labels),
        None => Err(ReadFault::Malformed),
    }
}

/// Labels behind their count.
#[tactic(auto, unfolding(crate::specs::Reading::labels_at))]
fn read_labels(alloc: Global, cursor: &mut Cursor) -> Result<Labels, ReadFault>
    ensures { Reads result cursor.new (labels_at cursor.old) }
{
    labels_of(cursor.list::<Pair>(alloc)?)
}

/// The frames of a stack.
#[tactic(auto, unfolding(crate::specs::Reading::stack_at))]
fn read_stack(alloc: Global, cursor: &mut Cursor) -> Result<Stack, ReadFault>
    ensures { Reads result cursor.new (stack_at cursor.old) }
{
    Ok(Shared::of(cursor.list::<Text>(alloc)?)?)
}

/// The three numbers that a row ends with.
#[tactic(auto, unfolding(crate::specs::Reading::numbers_at, crate::specs::Reading::both_at))]
fn read_numbers(cursor: &mut Cursor) -> Result<(i64, i64, i64), ReadFault>
    ensures ok { IfOk result (λ n. numbers_at cursor.old
        ≡ Some (record { first = n.0; second = record { first = n.1; second = n.2 } }, cursor.new)) }
    ensures err { IfErr result (λ e. Fails e (numbers_at cursor.old)) }
{
    Ok((cursor.whole()?, cursor.whole()?, cursor.whole()?))
}

impl Spelled for Row {
    ghost read_at = { row_at };

    ghost least = { least_row };

    fn least() -> u32 {
        64
    }

    #[tactic(auto, unfolding(crate::specs::Reading::row_at, crate::specs::Reading::both_at))]
    fn read(alloc: Global, cursor: &mut Cursor) -> Result<Row, ReadFault> {
        let name = cursor.text(alloc)?;
        let sample_type = cursor.text(alloc)?;
        let sample_unit = cursor.text(alloc)?;
        let period_type = cursor.text(alloc)?;
        let period_unit = cursor.text(alloc)?;
        let labels = read_labels(alloc, cursor)?;
        let timestamp = cursor.whole()?;
        let stack = read_stack(alloc, cursor)?;
        let pprof_labels = read_labels(alloc, cursor)?;
        let (period, duration, value) = read_numbers(cursor)?;
        Ok(Row {
            name,
            sample_type,
            sample_unit,
            period_type,
            period_unit,
            labels,
            timestamp,
            stack,
            pprof_labels,
            period,
            duration,
            value,
        })
    }
}
