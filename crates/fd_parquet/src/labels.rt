ghost use Rattle.std.specs.Prelude.{◌≡◌, ◌++◌, [], IfOk, IfSome, IsUtf8};
ghost use Rattle.std.specs.Option.{option_copied};
ghost use Rattle.std.specs.List.{cons_option};
ghost use Rattle.fd_column.specs.LabelColumns.{labels_from};
ghost use Rattle.fd_parquet.specs.Rows.{behind as behind_prefix, pair_of, pairs_in, labels_in};
ghost use Rattle.fd_parquet.specs.Rows.{NamesLabels};
ghost use Rattle.fd_parquet.specs.Stages.{HaveTexts};

use crate::frame::behind;
use crate::rows::bytes_at;
use fd_column::text_of;
use fd_footer::Column;
use fd_kinds::{Items, Labels, NoMemory, Pair, Pairs, Shared};
use fd_pages::CellList;
use std::alloc::Global;

/// What follows a prefix in the name of a column.
fn name_behind<'a>(prefix: &[u8], column: &'a Column) -> Option<&'a [u8]>
    requires { NamesLabels prefix.now }
    ensures name { option_copied result ≡ behind_prefix prefix.now column.now.name }
    ensures utf8 { IfSome result (λ name. IsUtf8 name.now) }
{
    behind(column.name.as_str().as_bytes(), prefix)
}

/// The pairs and one more, where a name and a value are there.
fn with_pair(
    alloc: Global,
    pairs: Pairs,
    name: Option<&[u8]>,
    value: Option<&[u8]>,
) -> Result<Pairs, NoMemory>
    requires names { IfSome name (λ name. IsUtf8 name.now) }
    requires values { IfSome name (λ _. IfSome value (λ value. IsUtf8 value.now)) }
    ensures { IfOk result
        (λ more. more ≡ pairs
        ++ cons_option (pair_of (option_copied name.entry) (option_copied value.entry)) []) }
{
    let mut more = pairs;
    if let Some(name) = name {
        if let Some(value) = value {
            more.push(Pair {
                name: text_of(alloc, name)?,
                value: text_of(alloc, value)?,
            })?;
        }
    }
    Ok(more)
}

/// The pairs of a row, from the columns whose names have this prefix.
fn pairs_at(
    alloc: Global,
    columns: &[Column],
    prefix: &[u8],
    cells: &[CellList],
    at: usize,
) -> Result<Pairs, NoMemory>
    requires labels { NamesLabels prefix.now }
    requires texts { HaveTexts columns.now cells.now }
    ensures { IfOk result (λ pairs. pairs ≡ pairs_in prefix.now columns.now cells.now at) }
{
    let mut pairs = Items::new(alloc);
    for (place, column) in columns.iter().enumerate() {
        let name = name_behind(prefix, column);
        pairs = with_pair(alloc, pairs, name, bytes_at(cells, place, at))?;
    }
    Ok(pairs)
}

/// The labels of these pairs. Pairs that are out of order give none.
#[tactic(auto, using(crate::proofs::PairLaws::labels_there, crate::proofs::PairLaws::no_labels))]
fn labels_of(pairs: Pairs) -> Result<Labels, NoMemory>
    ensures { IfOk result (λ labels. labels ≡ labels_from pairs) }
{
    let alloc = pairs.allocator();
    match Labels::checked(Shared::of(pairs)?) {
        Some(labels) => Ok(labels),
        None => Ok(Labels {
            pairs: Shared::new(alloc),
        }),
    }
}

/// The labels of a row whose columns have this prefix.
pub(crate) fn labels_at(
    alloc: Global,
    columns: &[Column],
    prefix: &[u8],
    cells: &[CellList],
    at: usize,
) -> Result<Labels, NoMemory>
    requires labels { NamesLabels prefix.now }
    requires texts { HaveTexts columns.now cells.now }
    ensures { IfOk result (λ labels. labels ≡ labels_in prefix.now columns.now cells.now at) }
{
    labels_of(pairs_at(alloc, columns, prefix, cells, at)?)
}
