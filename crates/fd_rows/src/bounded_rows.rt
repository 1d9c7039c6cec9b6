ghost use Rattle.std.specs.Prelude.{◌≡◌, ◌≤◌, [], ◌∷◌, ◌++◌, true, sum_by, IfOk, MatchOption};
ghost use Rattle.fd_kinds.specs.RowSize.{row_size};
ghost use Rattle.fd_rows.specs.Rows.{profile_rows};
ghost use Rattle.fd_rows.specs.Body.{is_large};
ghost use Rattle.fd_rows.specs.declared.limits.TheConstants.{MOST_BODY_ROW_BYTES};

use crate::limits::MOST_BODY_ROW_BYTES;
use crate::rows::with_rows;
use crate::sized_series::SizedSeries;
use crate::sizes::with_profile;
use fd_kinds::{NoMemory, Rows};
use fd_pprof::Survey;
use std::alloc::Global;

/// The rows of a body so far, and their bytes, which are within the limit.
#[derive(Debug, Drop)]
pub struct BoundedRows {
    pub rows: Rows,
    pub bytes: u64,
    ghost counted: { bytes ≡ sum_by row_size rows },
    ghost small: { bytes ≤ MOST_BODY_ROW_BYTES },
}

/// Adds the rows of a profile; none where they are too many bytes with it, which is found before
/// one of its rows is built.
pub(crate) fn with_survey(
    alloc: Global,
    rows: BoundedRows,
    of: &SizedSeries,
    survey: &Survey,
) -> Result<Option<BoundedRows>, NoMemory>
    ensures { IfOk result (λ more. MatchOption more
        (is_large (rows.rows ++ profile_rows of.now.series survey.now) ≡ true)
        (λ m. m.rows ≡ rows.rows ++ profile_rows of.now.series survey.now)) }
{
    let BoundedRows { rows, bytes } = rows;
    let bytes = with_profile(alloc, bytes, of, survey)?;
    if bytes > MOST_BODY_ROW_BYTES {
        return Ok(None);
    }
    let rows = with_rows(alloc, rows, &of.series, survey)?;
    Ok(Some(BoundedRows { rows, bytes }))
}
