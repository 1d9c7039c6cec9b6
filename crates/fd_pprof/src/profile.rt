use fd_kinds::{Items, Labels, Stack, Text};

/// Whole numbers of 64 bits.
pub type Wholes = Items<i64>;

/// What is measured, and its unit, such as `cpu` in `nanoseconds`.
#[derive(Debug, Drop)]
pub struct ValueType {
    pub kind: Text,
    pub unit: Text,
}

pub type ValueTypes = Items<ValueType>;

/// A stack, its value for each sample type in their order, and its labels.
#[derive(Debug, Drop)]
pub struct Sample {
    /// The leaf first.
    pub stack: Stack,
    pub values: Wholes,
    /// The labels with a text; numeric labels are left out.
    pub labels: Labels,
}

pub type Samples = Items<Sample>;

/// A profile by `profile.proto` of pprof. Times are in nanoseconds.
#[derive(Debug, Drop)]
pub struct Profile {
    pub sample_types: ValueTypes,
    pub samples: Samples,
    pub period_type: ValueType,
    pub period: i64,
    /// Since 1970, in UTC.
    pub time_nanos: i64,
    pub duration_nanos: i64,
}
