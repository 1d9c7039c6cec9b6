ghost use Rattle.std.specs.Prelude.{◌+◌, ◌≤◌, length, IfOk, IsPermutation};

use fd_kinds::{Batch, Items, Labels, NoMemory, Row, Rows, Stack};

/// An odd number whose bits stand without a pattern.
const SCATTER: u64 = 0x9e37_79b9_7f4a_7c15;

/// Nearly where a row stands among others. Rows that differ in their values alone differ in
/// `value` alone.
#[derive(Debug, Clone, Copy, PartialEq, Eq, PartialOrd, Ord, Drop)]
struct SortKey {
    name: u64,
    sample_type: u64,
    labels: u64,
    timestamp: i64,
    leaf: u64,
    stack: u64,
    pprof_labels: u64,
    value: i64,
}

/// Eight bytes from a place on, the first the most significant.
fn word(text: &[u8], at: usize) -> u64
    requires { at + 8 ≤ length text.now }
{
    u64::from_be_bytes([
        text[at],
        text[at + 1],
        text[at + 2],
        text[at + 3],
        text[at + 4],
        text[at + 5],
        text[at + 6],
        text[at + 7],
    ])
}

/// The bytes of a text of less than eight, as if zeros followed.
fn short_head(text: &[u8]) -> u64 {
    let mut head = 0u64;
    for at in 0..8 {
        let byte = text.get(at).copied().unwrap_or(0);
        head = head.wrapping_mul(256).wrapping_add(u64::from(byte));
    }
    head
}

/// The first eight bytes of a text: lesser for a text that is less, or equal.
fn head(text: &[u8]) -> u64 {
    if text.len() < 8 {
        return short_head(text);
    }
    word(text, 0)
}

/// The last eight bytes of a text.
fn tail(text: &[u8]) -> u64 {
    if text.len() < 8 {
        return short_head(text);
    }
    word(text, text.len() - 8)
}

/// A number of a text behind others, whose number is `before`; equal texts give equal numbers.
fn scattered(before: u64, text: &[u8]) -> u64 {
    let text = head(text)
        .wrapping_add(tail(text).rotate_left(20))
        .wrapping_add(text.len() as u64);
    (before ^ text).wrapping_mul(SCATTER).rotate_left(29)
}

fn scattered_stack(stack: &Stack) -> u64 {
    let mut number = 0;
    for frame in stack.as_slice() {
        number = scattered(number, frame.as_bytes());
    }
    number
}

fn scattered_labels(labels: &Labels) -> u64 {
    let mut number = 0;
    for pair in labels.pairs.as_slice() {
        number = scattered(number, pair.name.as_bytes());
        number = scattered(number, pair.value.as_bytes());
    }
    number
}

fn leaf(stack: &Stack) -> u64 {
    match stack.get(0) {
        Some(frame) => head(frame.as_bytes()),
        None => 0,
    }
}

fn sort_key(row: &Row) -> SortKey {
    SortKey {
        name: head(row.name.as_bytes()),
        sample_type: head(row.sample_type.as_bytes()),
        labels: scattered_labels(&row.labels),
        timestamp: row.timestamp,
        leaf: leaf(&row.stack),
        stack: scattered_stack(&row.stack),
        pprof_labels: scattered_labels(&row.pprof_labels),
        value: row.value,
    }
}

/// The rows nearly in order, by a few numbers of each.
fn nearly_sorted(rows: Rows) -> Result<Rows, NoMemory>
    ensures { IfOk result (λ near. IsPermutation rows near) }
{
    let mut rows = rows.into_vec();
    rows.sort_by_cached_key(sort_key)?;
    Ok(Items::from_vec(rows))
}

/// The batch of the rows. To tell that two long stacks are equal costs most, so rows are first put
/// nearly in order by a few numbers; then long stretches are in order, and equal stacks are
/// compared about once.
pub(crate) fn sorted(rows: Rows) -> Result<Batch, NoMemory>
    ensures { IfOk result (λ batch. IsPermutation rows batch.rows) }
{
    let near = nearly_sorted(rows)?;
    Batch::of(near)
}
