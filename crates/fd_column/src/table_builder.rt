ghost use Rattle.std.specs.Prelude.{◌≡◌, [], ◌∷◌, ◌++◌, Some, IfOk, OnOk, map};
ghost use Rattle.fd_column.specs.LabelColumns.{add_columns, with_value};
ghost use Rattle.fd_column.specs.Stacks.{stack_bytes, AreShort};
ghost use Rattle.fd_column.specs.Tables.{IsTableOf, KindsGrowBy, WholesGrowBy, GrowsBy};

use crate::label_columns::{finished, with_labels};
use crate::stacks::spelled;
use crate::table::{Kinds, LabelColumn, Table, Wholes};
use fd_dictionary::{Dictionary, DictionaryBuilder};
use fd_kinds::{Items, Labels, NoMemory, Row, Stack};
use std::alloc::Global;
use std::mem;

/// The columns of no rows.
pub fn new_table(alloc: Global) -> Table<DictionaryBuilder>
    ensures { IsTableOf result [] }
{
    Table {
        numbers: Items::new(alloc),
        kinds: Kinds {
            name: DictionaryBuilder::new(alloc),
            sample_type: DictionaryBuilder::new(alloc),
            sample_unit: DictionaryBuilder::new(alloc),
            period_type: DictionaryBuilder::new(alloc),
            period_unit: DictionaryBuilder::new(alloc),
        },
        labels: Items::new(alloc),
        stacks: DictionaryBuilder::new(alloc),
        pprof_labels: Items::new(alloc),
        wholes: Wholes {
            timestamps: Items::new(alloc),
            periods: Items::new(alloc),
            durations: Items::new(alloc),
            values: Items::new(alloc),
        },
    }
}

/// Adds the texts of a row. After want of memory the columns are of no use.
fn push_kinds(kinds: &mut Kinds<DictionaryBuilder>, row: &Row) -> Result<(), NoMemory>
    ensures { OnOk result (KindsGrowBy row.now kinds.old kinds.new) }
{
    kinds.name.push_text(row.name.as_bytes())?;
    kinds.sample_type.push_text(row.sample_type.as_bytes())?;
    kinds.sample_unit.push_text(row.sample_unit.as_bytes())?;
    kinds.period_type.push_text(row.period_type.as_bytes())?;
    kinds.period_unit.push_text(row.period_unit.as_bytes())?;
    Ok(())
}

/// Adds the whole numbers of a row. After want of memory the columns are of no use.
fn push_wholes(wholes: &mut Wholes, row: &Row) -> Result<(), NoMemory>
    ensures { OnOk result (WholesGrowBy row.now wholes.old wholes.new) }
{
    wholes.timestamps.push(row.timestamp)?;
    wholes.periods.push(row.period)?;
    wholes.durations.push(row.duration)?;
    wholes.values.push(row.value)?;
    Ok(())
}

/// Adds a stack.
fn push_stack(stacks: &mut DictionaryBuilder, alloc: Global, stack: &Stack) -> Result<(), NoMemory>
    requires { AreShort stack.now }
    ensures { OnOk result (stacks.new ≡ stacks.old ++ Some (stack_bytes stack.now) ∷ []) }
{
    let bytes = spelled(alloc, stack)?;
    stacks.push_text(bytes.as_slice())
}

/// Adds the labels of a row to the columns of so many rows.
fn push_labels(
    columns: &mut Items<LabelColumn<DictionaryBuilder>>,
    labels: &Labels,
    count: usize,
) -> Result<(), NoMemory>
    ensures { OnOk result (columns.new
        ≡ map (with_value labels.now.pairs) (add_columns count columns.old labels.now.pairs)) }
{
    let alloc = columns.allocator();
    let old = mem::replace(columns, Items::new(alloc));
    *columns = with_labels(old, labels.pairs.as_slice(), count)?;
    Ok(())
}

/// Adds a row. After want of memory the columns are of no use.
pub fn push_row(
    table: &mut Table<DictionaryBuilder>,
    number: u64,
    row: &Row,
) -> Result<(), NoMemory>
    requires { AreShort row.now.stack }
    ensures { OnOk result (
        GrowsBy (record { number = number; row = row.now }) table.old table.new) }
{
    let count = table.numbers.len();
    let alloc = table.numbers.allocator();
    table.numbers.push(number)?;
    push_kinds(&mut table.kinds, row)?;
    push_labels(&mut table.labels, &row.labels, count)?;
    push_stack(&mut table.stacks, alloc, &row.stack)?;
    push_labels(&mut table.pprof_labels, &row.pprof_labels, count)?;
    push_wholes(&mut table.wholes, row)?;
    Ok(())
}

/// The columns as they stand. It takes no memory.
fn finished_kinds(kinds: Kinds<DictionaryBuilder>) -> Kinds<Dictionary>
    ensures { result ≡ kinds }
{
    let Kinds {
        name,
        sample_type,
        sample_unit,
        period_type,
        period_unit,
    } = kinds;
    Kinds {
        name: name.finish(),
        sample_type: sample_type.finish(),
        sample_unit: sample_unit.finish(),
        period_type: period_type.finish(),
        period_unit: period_unit.finish(),
    }
}

/// Both groups of columns of labels as they stand.
fn finished_labels(
    labels: Items<LabelColumn<DictionaryBuilder>>,
    pprof_labels: Items<LabelColumn<DictionaryBuilder>>,
) -> Result<
    (
        Items<LabelColumn<Dictionary>>,
        Items<LabelColumn<Dictionary>>,
    ),
    NoMemory,
>
    ensures labels { IfOk result (λ done. done.0 ≡ labels) }
    ensures pprof_labels { IfOk result (λ done. done.1 ≡ pprof_labels) }
{
    let labels = finished(labels)?;
    let pprof_labels = finished(pprof_labels)?;
    Ok((labels, pprof_labels))
}

/// The columns as they stand.
pub fn finished_table(table: Table<DictionaryBuilder>) -> Result<Table<Dictionary>, NoMemory>
    ensures { IfOk result (λ done. done ≡ table) }
{
    let Table {
        numbers,
        kinds,
        labels,
        stacks,
        pprof_labels,
        wholes,
    } = table;
    let (labels, pprof_labels) = finished_labels(labels, pprof_labels)?;
    Ok(Table {
        numbers,
        kinds: finished_kinds(kinds),
        labels,
        stacks: stacks.finish(),
        pprof_labels,
        wholes,
    })
}
