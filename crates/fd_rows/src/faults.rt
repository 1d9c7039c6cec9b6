use fd_kinds::NoMemory;
use fd_pprof::ProfileFault;
use std::error::Error;
use std::fmt;

/// Why a label of a series is refused: the first of these that holds.
#[derive(Debug, Clone, Copy, PartialEq, Eq)]
pub enum LabelFault {
    /// The name is not a letter or `_`, followed by letters, digits and `_`, all ASCII.
    BadLabelName,
    /// The name or the value has more than 4,096 bytes (`MOST_LABEL_BYTES`).
    LongValue,
    /// An earlier label of the series has the name.
    RepeatedLabel,
}

impl fmt::Display for LabelFault {
    fn fmt<W: fmt::Write>(&self, f: &mut fmt::Formatter<W>) -> fmt::Result {
        match self {
            LabelFault::BadLabelName => f.write_str("the name is no label name"),
            LabelFault::LongValue => f.write_str("the name or the value is too long"),
            LabelFault::RepeatedLabel => f.write_str("an earlier label has the name"),
        }
    }
}

impl Error for LabelFault {}

/// Why a write body is refused. Places count from 0: `series` in the body, `label` and `sample`
/// in the series, where each profile is one sample.
#[derive(Debug, Clone, Copy, PartialEq, Eq)]
pub enum BatchFault {
    Label {
        series: u64,
        label: u64,
        fault: LabelFault,
    },
    /// The series has no label `__name__`, or an empty one.
    NoName {
        series: u64,
    },
    Profile {
        series: u64,
        sample: u64,
        fault: ProfileFault,
    },
    /// With the rows of this profile the rows of the body have more than 134,217,728 bytes
    /// (`MOST_BODY_ROW_BYTES`).
    Large {
        series: u64,
        sample: u64,
    },
    NoMemory,
}

impl fmt::Display for BatchFault {
    fn fmt<W: fmt::Write>(&self, f: &mut fmt::Formatter<W>) -> fmt::Result {
        match self {
            BatchFault::Label {
                series,
                label,
                fault,
            } => write!(f, "label {label} of series {series}: {fault}"),
            BatchFault::NoName { series } => write!(f, "series {series} has no name"),
            BatchFault::Profile {
                series,
                sample,
                fault,
            } => write!(f, "profile {sample} of series {series}: {fault}"),
            BatchFault::Large { series, sample } => {
                write!(
                    f,
                    "profile {sample} of series {series}: too many bytes of rows"
                )
            }
            BatchFault::NoMemory => write!(f, "out of memory"),
        }
    }
}

impl Error for BatchFault {}

impl From<NoMemory> for BatchFault {
    ghost use Rattle.std.specs.Prelude.{◌≡◌};
    ghost use Rattle.fd_rows.specs.declared.faults.BatchFault.TheVariants.{NoMemory};

    ghost from_gives = { λ _ e. e ≡ NoMemory };

    fn from(_error: NoMemory) -> BatchFault {
        BatchFault::NoMemory
    }
}
