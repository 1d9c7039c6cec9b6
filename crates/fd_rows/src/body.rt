ghost use Rattle.std.specs.Prelude.{◌≡◌, ◌≢◌, ◌≤◌, ◌++◌, [], None, Some, IfOk, IfErr};
ghost use Rattle.std.specs.Prelude.{IsPermutation, sum_by};
ghost use Rattle.fd_kinds.specs.RowSize.{row_size};
ghost use Rattle.fd_rows.specs.Rows.{series_rows, body_rows};
ghost use Rattle.fd_rows.specs.Body.{series_refusal, body_refusal};

use crate::BatchFault;
use crate::bounded_rows::BoundedRows;
use crate::checks::checked;
use crate::limits::MOST_BODY_ROW_BYTES;
use crate::profiles::with_messages;
use crate::sized_series::SizedSeries;
use crate::sorter::sorted;
use fd_kinds::{Batch, Items, RawBody, RawSeries};
use std::alloc::Global;

/// Adds the rows of the series at the place `at`.
fn with_series(
    alloc: Global,
    rows: BoundedRows,
    at: u64,
    series: &RawSeries,
) -> Result<BoundedRows, BatchFault>
    ensures none { IfOk result (λ _. series_refusal at rows.rows series.now ≡ None) }
    ensures ok { IfOk result (λ more. more.rows ≡ rows.rows ++ series_rows series.now) }
    ensures err { IfErr result (λ e. e ≢ BatchFault.NoMemory
        → series_refusal at rows.rows series.now ≡ Some e) }
{
    let own = checked(alloc, at, &series.labels)?;
    let of = SizedSeries::of(alloc, own)?;
    with_messages(alloc, rows, at, &of, &series.profiles)
}

/// No rows.
fn no_rows(alloc: Global) -> BoundedRows
    ensures { result.rows ≡ [] }
{
    BoundedRows {
        rows: Items::new(alloc),
        bytes: 0,
    }
}

/// The rows of all series of a write body, or the fault that is met first: the series in order,
/// in each first its labels, then its name, then its profiles. A row has the name and the labels
/// of its series, and the type, the stack, the labels and the value of its sample; a value 0 has
/// none. Times are in milliseconds since 1970, rounded down.
pub fn batch(alloc: Global, body: &RawBody) -> Result<Batch, BatchFault>
    ensures ok { IfOk result (λ batch. (body_refusal body.now ≡ None)
        × IsPermutation (body_rows body.now) batch.rows) }
    ensures err { IfErr result (λ e. e ≢ BatchFault.NoMemory → body_refusal body.now ≡ Some e) }
    ensures small { IfOk result (λ batch. sum_by row_size batch.rows ≤ MOST_BODY_ROW_BYTES) }
{
    let mut rows = no_rows(alloc);
    for (i, series) in body.series.as_slice().iter().enumerate() {
        rows = with_series(alloc, rows, i as u64, series)?;
    }
    let batch = sorted(rows.rows)?;
    Ok(batch)
}
