ghost use Rattle.std.specs.Prelude.{◌≡◌, ◌+◌, [], ◌∷◌, drop, Some, None, IfOk, slice_get};
ghost use Rattle.std.specs.List.{flat_map, zip};
ghost use Rattle.fd_pprof.specs.declared.profile.Sample.{Sample};
ghost use Rattle.fd_pprof.specs.declared.profile.ValueType.{ValueType};
ghost use Rattle.fd_rows.specs.declared.series.Series.{Series};
ghost use Rattle.fd_rows.specs.Rows.{value_rows, sample_rows, profile_rows};
ghost use Rattle.fd_rows.specs.Sizes.{held, sample_size, type_length, with_rows};

use crate::sized_series::SizedSeries;
use fd_kinds::NoMemory;
use fd_pprof::Survey;
use std::alloc::Global;

/// The bytes of a row of a sample, besides the texts of its sample type.
fn each_bytes(alloc: Global, of: &SizedSeries, survey: &Survey, at: usize) -> Result<u64, NoMemory>
    ensures { IfOk result (λ n. (s : Sample) → slice_get survey.now.samples at ≡ Some s
        → n ≡ held (sample_size of.now.series survey.now s)) }
{
    let labels = survey.label_bytes(alloc, at)?;
    Ok(
        of.bytes
            .saturating_add(survey.period_type_bytes())
            .saturating_add(survey.stack_bytes(at))
            .saturating_add(labels),
    )
}

/// The bytes before, and those of the row of a value, which for 0 is none.
fn with_value(size: u64, each: u64, survey: &Survey, value: i64, kind: usize) -> u64
    ensures { (series : Series) (s : Sample) (t : ValueType)
        → each ≡ held (sample_size series survey.now s)
        → slice_get survey.now.sample_types kind ≡ Some t
        → result ≡ with_rows size (value_rows series survey.now s (t, value)) }
{
    if value == 0 {
        return size;
    }
    size.saturating_add(each)
        .saturating_add(survey.kind_bytes(kind))
}

/// The bytes before, and those of the row of the sample for the sample type `kind`.
fn with_kind(size: u64, each: u64, survey: &Survey, at: usize, kind: usize) -> u64
    ensures { (series : Series) (s : Sample) (t : ValueType)
        → each ≡ held (sample_size series survey.now s)
        → slice_get survey.now.samples at ≡ Some s
        → slice_get survey.now.sample_types kind ≡ Some t
        → result ≡ with_rows size
        (flat_map (value_rows series survey.now s) (zip (t ∷ []) (drop kind s.values))) }
{
    match survey.value(at, kind) {
        Some(value) => with_value(size, each, survey, value, kind),
        None => size,
    }
}

/// The bytes before, and those of the rows of the sample at a place.
fn with_sample(
    alloc: Global,
    size: u64,
    of: &SizedSeries,
    survey: &Survey,
    at: usize,
) -> Result<u64, NoMemory>
    ensures { IfOk result (λ n. (s : Sample) → slice_get survey.now.samples at ≡ Some s
        → n ≡ with_rows size (sample_rows of.now.series survey.now s)) }
{
    let each = each_bytes(alloc, of, survey, at)?;
    let mut more = size;
    for kind in 0..survey.kinds() {
        more = with_kind(more, each, survey, at, kind);
    }
    Ok(more)
}

/// The bytes before, and those of the rows of a profile, of which nothing is built.
pub(crate) fn with_profile(
    alloc: Global,
    size: u64,
    of: &SizedSeries,
    survey: &Survey,
) -> Result<u64, NoMemory>
    ensures { IfOk result (λ n. n ≡ with_rows size (profile_rows of.now.series survey.now)) }
{
    let mut more = size;
    for at in 0..survey.len() {
        more = with_sample(alloc, more, of, survey, at)?;
    }
    Ok(more)
}
