ghost use Rattle.std.specs.Prelude.{◌≡◌, [], ◌∷◌, ◌++◌, drop, Some, IfOk, slice_get};
ghost use Rattle.std.specs.List.{flat_map, zip};
ghost use Rattle.fd_pprof.specs.declared.profile.Sample.{Sample};
ghost use Rattle.fd_pprof.specs.declared.profile.ValueType.{ValueType};
ghost use Rattle.fd_rows.specs.Rows.{row_of, value_rows, sample_rows, profile_rows};

use crate::series::Series;
use fd_kinds::{NoMemory, Row, Rows, Share};
use fd_pprof::{Sample, Survey, ValueType};
use std::alloc::Global;

fn row(
    alloc: Global,
    series: &Series,
    survey: &Survey,
    sample: &Sample,
    kind: ValueType,
    value: i64,
) -> Result<Row, NoMemory>
    ensures { IfOk result (λ row. row ≡ row_of series.now survey.now sample.now kind value) }
{
    let period = survey.period_type(alloc)?;
    Ok(Row {
        name: series.name.share()?,
        sample_type: kind.kind,
        sample_unit: kind.unit,
        period_type: period.kind,
        period_unit: period.unit,
        labels: series.labels.share()?,
        timestamp: survey.time_nanos().div_euclid(1_000_000),
        stack: sample.stack.share()?,
        pprof_labels: sample.labels.share()?,
        period: survey.period(),
        duration: survey.duration_nanos(),
        value,
    })
}

#[tactic(auto, unfolding(crate::specs::Rows::value_rows))]
/// Adds the row of a value, which for 0 is none.
fn with_value(
    alloc: Global,
    rows: Rows,
    series: &Series,
    survey: &Survey,
    sample: &Sample,
    kind: usize,
    value: &i64,
) -> Result<Rows, NoMemory>
    ensures { IfOk result (λ more. (t : ValueType) → slice_get survey.now.sample_types kind ≡ Some t
        → more ≡ rows ++ value_rows series.now survey.now sample.now (t, value.now)) }
{
    let value = *value;
    if value == 0 {
        return Ok(rows);
    }
    let mut rows = rows;
    if let Some(kind) = survey.kind(alloc, kind)? {
        rows.push(row(alloc, series, survey, sample, kind, value)?)?;
    }
    Ok(rows)
}

/// Adds the row of the sample for the sample type `kind`.
fn with_kind(
    alloc: Global,
    rows: Rows,
    series: &Series,
    survey: &Survey,
    sample: &Sample,
    kind: usize,
) -> Result<Rows, NoMemory>
    ensures { IfOk result (λ more. (t : ValueType) → slice_get survey.now.sample_types kind ≡ Some t
        → more ≡ rows ++ flat_map (value_rows series.now survey.now sample.now)
        (zip (t ∷ []) (drop kind sample.now.values))) }
{
    match sample.values.get(kind) {
        Some(value) => with_value(alloc, rows, series, survey, sample, kind, value),
        None => Ok(rows),
    }
}

/// Adds the rows of a sample.
fn with_sample(
    alloc: Global,
    rows: Rows,
    series: &Series,
    survey: &Survey,
    sample: &Sample,
) -> Result<Rows, NoMemory>
    ensures { IfOk result (λ more. more ≡ rows ++ sample_rows series.now survey.now sample.now) }
{
    let mut more = rows;
    for kind in 0..survey.kinds() {
        more = with_kind(alloc, more, series, survey, sample, kind)?;
    }
    Ok(more)
}

/// Adds the rows of the sample at a place, of which nothing is built where it has none.
fn with_sample_at(
    alloc: Global,
    rows: Rows,
    series: &Series,
    survey: &Survey,
    at: usize,
) -> Result<Rows, NoMemory>
    ensures { IfOk result (λ more. (s : Sample) → slice_get survey.now.samples at ≡ Some s
        → more ≡ rows ++ sample_rows series.now survey.now s) }
{
    if !survey.has_value(at) {
        return Ok(rows);
    }
    match survey.sample(alloc, at)? {
        Some(sample) => with_sample(alloc, rows, series, survey, &sample),
        None => Ok(rows),
    }
}

/// Adds the rows of a profile.
pub(crate) fn with_rows(
    alloc: Global,
    rows: Rows,
    series: &Series,
    survey: &Survey,
) -> Result<Rows, NoMemory>
    ensures { IfOk result (λ more. more ≡ rows ++ profile_rows series.now survey.now) }
{
    let mut more = rows;
    for at in 0..survey.len() {
        more = with_sample_at(alloc, more, series, survey, at)?;
    }
    Ok(more)
}
