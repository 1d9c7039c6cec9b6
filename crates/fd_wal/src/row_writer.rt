ghost use Rattle.std.specs.Prelude.{◌≡◌, ◌++◌, ◌<◌, ◌^◌, length, All, IsUtf8, OnOk};
ghost use Rattle.fd_kinds.specs.RowSize.{text_size, pair_size, labels_size, stack_size, row_size};
ghost use Rattle.fd_kinds.specs.RowSpelling.{text_spelling, pair_spelling, labels_spelling};
ghost use Rattle.fd_kinds.specs.RowSpelling.{count_bytes, stack_spelling, whole_spelling, row_spelling};
ghost use Rattle.fd_wal.specs.Frames.{IsTextPair, IsWhole, IsRow};

use fd_kinds::{Bytes, Labels, NoMemory, Pair, Row, Stack, Text};

/// Adds a length or a count.
pub(crate) fn put_count(out: &mut Bytes, count: usize) -> Result<(), NoMemory>
    requires { count < 2 ^ 32 }
    ensures { OnOk result (out.new ≡ out.old ++ count_bytes count) }
{
    out.extend(&(count as u32).to_le_bytes())
}

/// Adds a text behind its length.
fn put_text(out: &mut Bytes, text: &Text) -> Result<(), NoMemory>
    requires { text_size text.now < 2 ^ 32 }
    ensures ok { OnOk result (out.new ≡ out.old ++ text_spelling text.now) }
    ensures utf8 { OnOk result (IsUtf8 text.now) }
{
    let text = text.as_str();
    put_count(out, text.len())?;
    out.extend(text.as_bytes())
}

/// Adds a number in eight bytes.
fn put_whole(out: &mut Bytes, number: &i64) -> Result<(), NoMemory>
    ensures ok { OnOk result (out.new ≡ out.old ++ whole_spelling number.now) }
    ensures whole { OnOk result (IsWhole number.now) }
{
    out.extend(&number.to_le_bytes())
}

/// Adds a name and its value.
fn put_pair(out: &mut Bytes, pair: &Pair) -> Result<(), NoMemory>
    requires { pair_size pair.now < 2 ^ 32 }
    ensures ok { OnOk result (out.new ≡ out.old ++ pair_spelling pair.now) }
    ensures utf8 { OnOk result (IsTextPair pair.now) }
{
    put_text(out, &pair.name)?;
    put_text(out, &pair.value)
}

/// Adds pairs behind their count.
fn put_labels(out: &mut Bytes, labels: &Labels) -> Result<(), NoMemory>
    requires { labels_size labels.now.pairs < 2 ^ 32 }
    ensures ok { OnOk result (out.new ≡ out.old ++ labels_spelling labels.now.pairs) }
    ensures utf8 { OnOk result (All IsTextPair labels.now.pairs) }
{
    put_count(out, labels.pairs.len())?;
    for pair in labels.pairs.as_slice() {
        put_pair(out, pair)?;
    }
    Ok(())
}

/// Adds frames behind their count.
fn put_stack(out: &mut Bytes, stack: &Stack) -> Result<(), NoMemory>
    requires { stack_size stack.now < 2 ^ 32 }
    ensures ok { OnOk result (out.new ≡ out.old ++ stack_spelling stack.now) }
    ensures utf8 { OnOk result (All IsUtf8 stack.now) }
{
    put_count(out, stack.len())?;
    for frame in stack.as_slice() {
        put_text(out, frame)?;
    }
    Ok(())
}

/// Adds the five texts that a row begins with.
fn put_texts(out: &mut Bytes, row: &Row) -> Result<(), NoMemory>
    requires { row_size row.now < 2 ^ 32 }
    ensures ok { OnOk result (out.new ≡ ((((out.old ++ text_spelling row.now.name)
        ++ text_spelling row.now.sample_type) ++ text_spelling row.now.sample_unit)
        ++ text_spelling row.now.period_type) ++ text_spelling row.now.period_unit) }
    ensures name { OnOk result (IsUtf8 row.now.name) }
    ensures sample_type { OnOk result (IsUtf8 row.now.sample_type) }
    ensures sample_unit { OnOk result (IsUtf8 row.now.sample_unit) }
    ensures period_type { OnOk result (IsUtf8 row.now.period_type) }
    ensures period_unit { OnOk result (IsUtf8 row.now.period_unit) }
{
    put_text(out, &row.name)?;
    put_text(out, &row.sample_type)?;
    put_text(out, &row.sample_unit)?;
    put_text(out, &row.period_type)?;
    put_text(out, &row.period_unit)
}

/// Adds what stands behind the texts of a row.
fn put_fields(out: &mut Bytes, row: &Row) -> Result<(), NoMemory>
    requires { row_size row.now < 2 ^ 32 }
    ensures ok { OnOk result (out.new ≡ ((((((out.old ++ labels_spelling row.now.labels.pairs)
        ++ whole_spelling row.now.timestamp) ++ stack_spelling row.now.stack)
        ++ labels_spelling row.now.pprof_labels.pairs) ++ whole_spelling row.now.period)
        ++ whole_spelling row.now.duration) ++ whole_spelling row.now.value) }
    ensures labels { OnOk result (All IsTextPair row.now.labels.pairs) }
    ensures timestamp { OnOk result (IsWhole row.now.timestamp) }
    ensures stack { OnOk result (All IsUtf8 row.now.stack) }
    ensures pprof_labels { OnOk result (All IsTextPair row.now.pprof_labels.pairs) }
    ensures period { OnOk result (IsWhole row.now.period) }
    ensures duration { OnOk result (IsWhole row.now.duration) }
    ensures value { OnOk result (IsWhole row.now.value) }
{
    put_labels(out, &row.labels)?;
    put_whole(out, &row.timestamp)?;
    put_stack(out, &row.stack)?;
    put_labels(out, &row.pprof_labels)?;
    put_whole(out, &row.period)?;
    put_whole(out, &row.duration)?;
    put_whole(out, &row.value)
}

/// Adds a row.
pub(crate) fn put_row(out: &mut Bytes, row: &Row) -> Result<(), NoMemory>
    requires { row_size row.now < 2 ^ 32 }
    ensures ok { OnOk result (out.new ≡ out.old ++ row_spelling row.now) }
    ensures row { OnOk result (IsRow row.now) }
{
    put_texts(out, row)?;
    put_fields(out, row)
}
