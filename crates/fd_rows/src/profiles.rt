ghost use Rattle.std.specs.Prelude.{◌≡◌, ◌≢◌, ◌++◌, None, Some, IfOk, IfErr};
ghost use Rattle.std.specs.List.{flat_map};
ghost use Rattle.fd_rows.specs.Rows.{message_rows};
ghost use Rattle.fd_rows.specs.Body.{message_refusal, messages_refusal};

use crate::BatchFault;
use crate::bounded_rows::{BoundedRows, with_survey};
use crate::sized_series::SizedSeries;
use fd_kinds::BytesList;
use fd_pprof::{ProfileFault, survey};
use std::alloc::Global;

fn unread(series: u64, sample: u64, fault: ProfileFault) -> BatchFault
    ensures memory { fault ≡ ProfileFault.NoMemory → result ≡ BatchFault.NoMemory }
    ensures other { fault ≢ ProfileFault.NoMemory
        → result ≡ BatchFault.Profile series sample fault }
{
    match fault {
        ProfileFault::NoMemory => BatchFault::NoMemory,
        fault => BatchFault::Profile {
            series,
            sample,
            fault,
        },
    }
}

/// Adds the rows of a profile at the place `sample` of the series at the place `at`.
fn with_message(
    alloc: Global,
    rows: BoundedRows,
    at: u64,
    of: &SizedSeries,
    sample: u64,
    bytes: &[u8],
) -> Result<BoundedRows, BatchFault>
    ensures none { IfOk result (λ _.
        message_refusal at of.now.series sample rows.rows bytes.now ≡ None) }
    ensures ok { IfOk result (λ more.
        more.rows ≡ rows.rows ++ message_rows of.now.series bytes.now) }
    ensures err { IfErr result (λ e. e ≢ BatchFault.NoMemory
        → message_refusal at of.now.series sample rows.rows bytes.now ≡ Some e) }
{
    let survey = match survey(alloc, bytes) {
        Ok(survey) => survey,
        Err(fault) => return Err(unread(at, sample, fault)),
    };
    match with_survey(alloc, rows, of, &survey)? {
        Some(more) => Ok(more),
        None => Err(BatchFault::Large { series: at, sample }),
    }
}

/// Adds the rows of the profiles of the series at the place `at`.
pub(crate) fn with_messages(
    alloc: Global,
    rows: BoundedRows,
    at: u64,
    of: &SizedSeries,
    messages: &BytesList,
) -> Result<BoundedRows, BatchFault>
    ensures none { IfOk result (λ _.
        messages_refusal at of.now.series 0 rows.rows messages.now ≡ None) }
    ensures ok { IfOk result (λ more.
        more.rows ≡ rows.rows ++ flat_map (message_rows of.now.series) messages.now) }
    ensures err { IfErr result (λ e. e ≢ BatchFault.NoMemory
        → messages_refusal at of.now.series 0 rows.rows messages.now ≡ Some e) }
{
    let mut more = rows;
    for (i, bytes) in messages.as_slice().iter().enumerate() {
        more = with_message(alloc, more, at, of, i as u64, bytes.as_slice())?;
    }
    Ok(more)
}
