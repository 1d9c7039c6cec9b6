ghost use Rattle.std.specs.Prelude.{◌≡◌, [], map};
ghost use Rattle.std.specs.Ordering.{is_lt, nat_cmp};
ghost use Rattle.std.specs.Cmp.Lexicographic.{slice_cmp};
ghost use Rattle.fd_footer.specs.Layout.{is_fixed as is_fixed_column, is_label as is_label_column, is_label_above, are_labels_above, fixed, fixed_view, are_own as are_own_columns};

use crate::{Column, ColumnType};

/// Whether a column is one that each file has.
fn is_fixed(column: &Column, name: &[u8], column_type: ColumnType) -> bool
    ensures { result ≡ is_fixed_column name.now column_type column.now }
{
    column.name.as_bytes() == name && column.column_type == column_type && column.required
}

/// Whether a column holds the values of a label.
fn is_label(column: &Column) -> bool
    ensures { result ≡ is_label_column column.now }
{
    let name = column.name.as_bytes();
    column.column_type == ColumnType::ByteArray
        && !column.required
        && (name.starts_with(b"labels.") || name.starts_with(b"pprof_labels."))
}

/// Whether a text stands below another by its bytes.
fn is_below(one: &[u8], other: &[u8]) -> bool
    ensures { result ≡ is_lt (slice_cmp nat_cmp one.now other.now) }
{
    one.cmp(other).is_lt()
}

/// Whether a column holds the values of a label, and has a name above `last`.
fn is_next_label(last: &[u8], column: &Column) -> bool
    ensures { result ≡ is_label_above last.now column.now }
{
    is_label(column) && is_below(last, column.name.as_bytes())
}

/// Whether the columns hold labels, with names that rise.
fn are_labels(columns: &[Column]) -> bool
    ensures { result ≡ are_labels_above [] columns.now }
{
    let mut last: &[u8] = &[];
    for column in columns {
        if !is_next_label(last, column) {
            return false;
        }
        last = column.name.as_bytes();
    }
    true
}

/// The names and types of the columns that each file has, in order.
fn fixed_columns() -> [(&'static [u8], ColumnType); 11]
    ensures { map fixed_view result ≡ fixed }
{
    [
        (b"_tx", ColumnType::Int64),
        (b"name", ColumnType::ByteArray),
        (b"sample_type", ColumnType::ByteArray),
        (b"sample_unit", ColumnType::ByteArray),
        (b"period_type", ColumnType::ByteArray),
        (b"period_unit", ColumnType::ByteArray),
        (b"timestamp", ColumnType::Int64),
        (b"stack", ColumnType::ByteArray),
        (b"period", ColumnType::Int64),
        (b"duration", ColumnType::Int64),
        (b"value", ColumnType::Int64),
    ]
}

/// Whether the columns are those of this project's files.
#[tactic(auto, unfolding(crate::specs::Layout::are_own))]
pub(crate) fn are_own(columns: &[Column]) -> bool
    ensures { result ≡ are_own_columns columns.now }
{
    let table = fixed_columns();
    let mut rest = columns;
    for (name, column_type) in &table {
        let Some((column, others)) = rest.split_first() else {
            return false;
        };
        if !is_fixed(column, name, *column_type) {
            return false;
        }
        rest = others;
    }
    are_labels(rest)
}
