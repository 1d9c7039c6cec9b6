use crate::Place;
use fd_lists::Items;
use fd_wire::Varints;

/// What a `Profile` of `profile.proto` holds, with its texts by their indexes. Signed numbers stand
/// in two's complement.
#[derive(Debug, Drop)]
pub struct Raw {
    /// Where the entries of the string table lie.
    pub texts: Items<Place>,
    /// Each text index of the profile and of its messages.
    pub indexes: Varints,
    pub sample_types: Items<RawType>,
    pub samples: Items<RawSample>,
    /// The ids of the mappings.
    pub mappings: Varints,
    pub locations: Items<RawLocation>,
    pub functions: Items<RawFunction>,
    pub period_type: RawType,
    pub period: u64,
    /// In nanoseconds since 1970, in UTC.
    pub time: u64,
    /// In nanoseconds.
    pub duration: u64,
}

/// A `ValueType`, by text indexes.
#[derive(Clone, Copy, Debug, PartialEq, Eq)]
pub struct RawType {
    pub kind: u64,
    pub unit: u64,
}

/// A `Sample`: the ids of its locations, the leaf first, its values and its labels.
#[derive(Debug, Drop)]
pub struct RawSample {
    pub locations: Varints,
    pub values: Varints,
    pub labels: Items<RawLabel>,
}

/// A `Label`, by text indexes. Its number and unit are left out.
#[derive(Clone, Copy, Debug, PartialEq, Eq)]
pub struct RawLabel {
    pub key: u64,
    pub text: u64,
}

/// A `Location`.
#[derive(Debug, Drop)]
pub struct RawLocation {
    pub id: u64,
    pub mapping: u64,
    pub address: u64,
    /// The function ids of its lines; the last is the caller into which the others were inlined.
    pub lines: Varints,
}

/// A `Function`; its name is a text index.
#[derive(Clone, Copy, Debug, PartialEq, Eq)]
pub struct RawFunction {
    pub id: u64,
    pub name: u64,
}
