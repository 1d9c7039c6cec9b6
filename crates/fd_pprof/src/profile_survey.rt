ghost use Rattle.std.specs.Prelude.{◌≡◌, ◌-◌, ◌^◌, pos, not, false, min, length, sum_by};
ghost use Rattle.std.specs.Prelude.{slice_get, None, IfOk, MatchOption};
ghost use Rattle.std.specs.List.{list_any};
ghost use Rattle.std.specs.Ordering.{int_eq};
ghost use Rattle.fd_kinds.specs.RowSize.{text_size, pair_size};
ghost use Rattle.fd_pprof.specs.Profile.{profile_from};
ghost use Rattle.fd_pprof.specs.Sizes.{type_size};

use crate::builder::{has_value, profile, sample, value_type};
use crate::sizes::stack_size;
use crate::tables::Tables;
use crate::winners::{labels_size, type_size};
use crate::{Profile, Sample, ValueType};
use fd_kinds::NoMemory;
use std::alloc::Global;
use std::marker::Model;

/// A profile without a refusal, of which nothing is built yet. A few bytes may name long stacks
/// many times over, so the size of a stack can be asked before it is built. A caller must not build
/// the samples of a profile from outside whose sizes it has not added up.
#[derive(Drop)]
pub struct Survey {
    tables: Tables,
}

impl Model for Survey {
    ghost use Rattle.fd_pprof.specs.declared.profile.Profile.{Profile};
    ghost use Rattle.fd_pprof.specs.Profile.{profile_from};

    ghost Value = { Profile };

    ghost view = { λ s. profile_from s.tables.texts s.tables.catalog.raw };
}

impl Survey {
    pub(crate) fn of(tables: Tables) -> Survey
        ensures { result ≡ profile_from tables.texts tables.catalog.raw }
    {
        Survey { tables }
    }

    /// How many sample types the profile has, and so how many values each sample has.
    pub fn kinds(&self) -> usize
        ensures { result ≡ length self.now.sample_types }
    {
        self.tables.catalog.raw.sample_types.len()
    }

    /// The bytes of both texts of the sample type at a place, and 2^64 - 1 where they are more;
    /// 0 where there is no such sample type.
    pub fn kind_bytes(&self, at: usize) -> u64
        ensures { MatchOption (slice_get self.now.sample_types at)
            (result ≡ 0) (λ t. result ≡ type_size t) }
    {
        match self.tables.catalog.raw.sample_types.get(at) {
            Some(raw) => type_size(&self.tables.texts, *raw),
            None => 0,
        }
    }

    /// What is measured at a place, in the order of each sample's values.
    pub fn kind(&self, alloc: Global, at: usize) -> Result<Option<ValueType>, NoMemory>
        ensures { IfOk result (λ t. t ≡ slice_get self.now.sample_types at) }
    {
        match self.tables.catalog.raw.sample_types.get(at) {
            Some(raw) => Ok(Some(value_type(alloc, &self.tables.texts, *raw)?)),
            None => Ok(None),
        }
    }

    /// The bytes of both texts of the period type, and 2^64 - 1 where they are more.
    pub fn period_type_bytes(&self) -> u64
        ensures { result ≡ type_size self.now.period_type }
    {
        type_size(&self.tables.texts, self.tables.catalog.raw.period_type)
    }

    pub fn period_type(&self, alloc: Global) -> Result<ValueType, NoMemory>
        ensures { IfOk result (λ kind. kind ≡ self.now.period_type) }
    {
        value_type(
            alloc,
            &self.tables.texts,
            self.tables.catalog.raw.period_type,
        )
    }

    pub fn period(&self) -> i64
        ensures { result ≡ self.now.period }
    {
        self.tables.catalog.raw.period.cast_signed()
    }

    /// In nanoseconds since 1970, in UTC.
    pub fn time_nanos(&self) -> i64
        ensures { result ≡ self.now.time_nanos }
    {
        self.tables.catalog.raw.time.cast_signed()
    }

    pub fn duration_nanos(&self) -> i64
        ensures { result ≡ self.now.duration_nanos }
    {
        self.tables.catalog.raw.duration.cast_signed()
    }

    /// How many samples the profile has.
    pub fn len(&self) -> usize
        ensures { result ≡ length self.now.samples }
    {
        self.tables.catalog.raw.samples.len()
    }

    /// The bytes of the frames of the sample at a place, each with four bytes more, and 2^64 - 1
    /// where they are more; 0 where there is no such sample.
    pub fn stack_bytes(&self, at: usize) -> u64
        ensures { MatchOption (slice_get self.now.samples at)
            (result ≡ 0) (λ s. result ≡ min (sum_by text_size s.stack) (2 ^ 64 - 1)) }
    {
        match self.tables.catalog.raw.samples.get(at) {
            Some(raw) => stack_size(&self.tables, raw),
            None => 0,
        }
    }

    /// The bytes of the labels of the sample at a place, each with four bytes more for its name and
    /// for its value, and 2^64 - 1 where they are more; 0 where there is no such sample.
    pub fn label_bytes(&self, alloc: Global, at: usize) -> Result<u64, NoMemory>
        ensures { IfOk result (λ n. MatchOption (slice_get self.now.samples at)
            (n ≡ 0) (λ s. n ≡ min (sum_by pair_size s.labels.pairs) (2 ^ 64 - 1))) }
    {
        match self.tables.catalog.raw.samples.get(at) {
            Some(raw) => labels_size(alloc, &self.tables, raw.labels.as_slice()),
            None => Ok(0),
        }
    }

    /// Whether the sample at a place has a value other than 0.
    pub fn has_value(&self, at: usize) -> bool
        ensures { MatchOption (slice_get self.now.samples at)
            (result ≡ false) (λ s. result ≡ list_any (λ v. not (int_eq v (pos 0))) s.values) }
    {
        match self.tables.catalog.raw.samples.get(at) {
            Some(raw) => has_value(raw.values.as_slice()),
            None => false,
        }
    }

    /// The value of the sample at a place for the sample type `kind`, counted from 0.
    pub fn value(&self, at: usize, kind: usize) -> Option<i64>
        ensures { MatchOption (slice_get self.now.samples at)
            (result ≡ None) (λ s. result ≡ slice_get s.values kind) }
    {
        let sample = self.tables.catalog.raw.samples.get(at)?;
        let value = sample.values.get(kind)?;
        Some(value.cast_signed())
    }

    /// The sample at a place.
    pub fn sample(&self, alloc: Global, at: usize) -> Result<Option<Sample>, NoMemory>
        ensures { IfOk result (λ s. s ≡ slice_get self.now.samples at) }
    {
        match self.tables.catalog.raw.samples.get(at) {
            Some(raw) => Ok(Some(sample(alloc, &self.tables, raw)?)),
            None => Ok(None),
        }
    }

    /// The whole profile.
    pub fn profile(&self, alloc: Global) -> Result<Profile, NoMemory>
        ensures { IfOk result (λ p. p ≡ self.now) }
    {
        profile(alloc, &self.tables)
    }
}
