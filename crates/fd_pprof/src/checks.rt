ghost use Rattle.std.specs.Prelude.{◌≡◌, ◌==◌, ◌||◌, not, nat_le, length};
ghost use Rattle.std.specs.List.{list_any};
ghost use Rattle.fd_pprof.specs.Ids.{is_unknown, has_repeats};
ghost use Rattle.fd_pprof.specs.Conditions.{plain_conditions, texts, begins_empty};
ghost use Rattle.fd_pprof.specs.Profile.{first_of};

use crate::ProfileFault;
use crate::catalog::Catalog;
use crate::index::Index;
use crate::texts::text_bytes;
use fd_proto::{Raw, RawLocation, RawSample};

/// The first text is there, and is empty.
fn begins_empty(bytes: &[u8], raw: &Raw) -> bool
    ensures { result ≡ begins_empty (texts bytes.now raw.now) }
{
    match raw.texts.as_slice() {
        [] => false,
        [first, ..] => text_bytes(bytes, *first).is_empty(),
    }
}

/// Some text index is not below the table's length.
fn has_bad_index(raw: &Raw) -> bool
    ensures { result ≡ list_any (nat_le (length raw.now.texts)) raw.now.indexes }
{
    let texts = raw.texts.len() as u64;
    raw.indexes.as_slice().iter().any(|i| texts <= *i)
}

/// Some sample has another number of values than there are sample types.
fn has_other_count(raw: &Raw) -> bool
    ensures { result
        ≡ list_any (λ s. not (length s.values == length raw.now.sample_types)) raw.now.samples }
{
    let types = raw.sample_types.len();
    raw.samples
        .as_slice()
        .iter()
        .any(|s| s.values.len() != types)
}

fn names_unknown(sample: &RawSample, locations: &Index) -> bool
    ensures { result
        ≡ list_any (λ id. (id == 0) || is_unknown locations.now.ids id) sample.now.locations }
{
    sample
        .locations
        .as_slice()
        .iter()
        .any(|id| *id == 0 || locations.is_unknown(*id))
}

/// Some sample names no location.
fn has_unknown_location(raw: &Raw, locations: &Index) -> bool
    ensures { result ≡ list_any
        (λ s. list_any (λ id. (id == 0) || is_unknown locations.now.ids id) s.locations)
        raw.now.samples }
{
    raw.samples
        .as_slice()
        .iter()
        .any(|s| names_unknown(s, locations))
}

/// Some location names no mapping.
fn has_unknown_mapping(raw: &Raw, mappings: &Index) -> bool
    ensures { result ≡ list_any (λ l. is_unknown mappings.now.ids l.mapping) raw.now.locations }
{
    raw.locations
        .as_slice()
        .iter()
        .any(|l| mappings.is_unknown(l.mapping))
}

fn has_unknown_line(location: &RawLocation, functions: &Index) -> bool
    ensures { result ≡ list_any (is_unknown functions.now.ids) location.now.lines }
{
    location
        .lines
        .as_slice()
        .iter()
        .any(|id| functions.is_unknown(*id))
}

/// Some line names no function.
fn has_unknown_function(raw: &Raw, functions: &Index) -> bool
    ensures { result
        ≡ list_any (λ l. list_any (is_unknown functions.now.ids) l.lines) raw.now.locations }
{
    raw.locations
        .as_slice()
        .iter()
        .any(|l| has_unknown_line(l, functions))
}

fn has_repeated_id(mappings: &Index, locations: &Index, functions: &Index) -> bool
    ensures { result ≡ ((has_repeats mappings.now.ids || has_repeats locations.now.ids)
        || has_repeats functions.now.ids) }
{
    mappings.repeats || locations.repeats || functions.repeats
}

/// The first fault whose condition holds.
fn first_of(checks: &[(bool, ProfileFault)]) -> Option<ProfileFault>
    ensures { result ≡ first_of checks.now }
{
    for (holds, fault) in checks {
        if *holds {
            return Some(*fault);
        }
    }
    None
}

/// The refusals for which the texts need not be read.
pub(crate) fn plain_refusal(bytes: &[u8], of: &Catalog) -> Option<ProfileFault>
    ensures { result ≡ first_of (plain_conditions (texts bytes.now of.now.raw) of.now.raw) }
{
    let raw = &of.raw;
    first_of(&[
        (!begins_empty(bytes, raw), ProfileFault::StringZero),
        (has_bad_index(raw), ProfileFault::StringIndex),
        (has_other_count(raw), ProfileFault::ValueCount),
        (
            has_unknown_location(raw, &of.locations),
            ProfileFault::UnknownLocation,
        ),
        (
            has_unknown_mapping(raw, &of.mappings),
            ProfileFault::UnknownMapping,
        ),
        (
            has_unknown_function(raw, &of.functions),
            ProfileFault::UnknownFunction,
        ),
        (
            has_repeated_id(&of.mappings, &of.locations, &of.functions),
            ProfileFault::RepeatedId,
        ),
    ])
}
