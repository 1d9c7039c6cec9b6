ghost use Rattle.std.specs.Prelude.{◌≡◌, ◌++◌, [], ◌∷◌, List, ℕ, IfOk, map, codes};
ghost use Rattle.fd_column.specs.Cells.{column_name, fixed_columns};

use crate::table::{LabelColumn, Table};
use fd_dictionary::Dictionary;
use fd_kinds::{Items, NoMemory, Text, Texts};
use std::alloc::Global;

const FIXED: [&str; 11] = [
    "_tx",
    "name",
    "sample_type",
    "sample_unit",
    "period_type",
    "period_unit",
    "timestamp",
    "stack",
    "period",
    "duration",
    "value",
];

/// The names of the fixed columns.
fn fixed_names(alloc: Global) -> Result<Texts, NoMemory>
    ensures { IfOk result (λ names. names ≡ map column_name fixed_columns) }
{
    let mut names = Items::new(alloc);
    for name in &FIXED {
        names.push(Text::of(alloc, name)?)?;
    }
    Ok(names)
}

/// The prefix, a full stop and the name.
fn dotted(alloc: Global, prefix: &str, name: &Text) -> Result<Text, NoMemory>
    ensures { IfOk result (λ text. text ≡ prefix.now ++ name.now) }
{
    let mut text = String::from_str(alloc, prefix)?;
    text.push_str(name.as_str())?;
    Text::from_string(text)
}

/// The names and those of the columns of labels, each behind the prefix.
fn with_names(
    names: Texts,
    prefix: &str,
    columns: &[LabelColumn<Dictionary>],
) -> Result<Texts, NoMemory>
    ensures { IfOk result (λ more.
        more ≡ names ++ map (λ column. prefix.now ++ column.name) columns.now) }
{
    let mut more = names;
    for column in columns {
        let name = dotted(more.allocator(), prefix, &column.name)?;
        more.push(name)?;
    }
    Ok(more)
}

/// The concrete names of the columns, in order.
pub fn names_of(table: &Table<Dictionary>) -> Result<Texts, NoMemory>
    ensures { IfOk result (λ names. names ≡ map column_name fixed_columns
        ++ map (λ column. codes "labels." ++ column.name) table.now.labels
        ++ map (λ column. codes "pprof_labels." ++ column.name) table.now.pprof_labels) }
{
    let names = fixed_names(table.numbers.allocator())?;
    let names = with_names(names, "labels.", table.labels.as_slice())?;
    with_names(names, "pprof_labels.", table.pprof_labels.as_slice())
}
