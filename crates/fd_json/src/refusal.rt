ghost use Rattle.std.specs.Prelude.{◌≡◌};
ghost use Rattle.fd_json.specs.Faults.{row, status_of, IsRefusalStatus};

/// The end of a window of time.
#[derive(Debug, Clone, Copy, PartialEq, Eq)]
pub enum Parameter {
    Start,
    End,
}

/// Why a request is refused, with the fields of its reply. A series, and a label or a sample in
/// it, are named by their places in the write body, from 0.
#[derive(Debug, Clone, Copy, PartialEq, Eq)]
pub enum Fault {
    /// No resource has the path.
    NoRoute,
    /// The resource has another method.
    BadMethod,
    /// A write body has a content encoding other than `identity`.
    Encoded,
    /// A write body is no JSON.
    NotJson,
    /// A write body is JSON of another shape.
    BadShape,
    /// The text of a profile is no base64.
    BadBase64 { series: u64, sample: u64 },
    /// The name of a label is no letter or `_`, followed by letters, digits and `_`.
    BadLabelName { series: u64, label: u64 },
    /// The name or the value of a label is too long.
    LongValue { series: u64, label: u64 },
    /// An earlier label of the series has the same name.
    RepeatedLabel { series: u64, label: u64 },
    /// A series has no label `__name__`, or an empty one.
    NoName { series: u64 },
    /// A profile is compressed by gzip.
    Compressed { series: u64, sample: u64 },
    /// A profile is no message of Protocol Buffers; `at` is the first byte of what does not read.
    Wire { series: u64, sample: u64, at: u64 },
    /// The string table of a profile does not begin with the empty text.
    StringZero { series: u64, sample: u64 },
    /// A place in the string table of a profile is outside it.
    StringIndex { series: u64, sample: u64 },
    /// A sample of a profile has another number of values than the profile has sample types.
    ValueCount { series: u64, sample: u64 },
    /// A sample of a profile names a location that the profile does not have.
    UnknownLocation { series: u64, sample: u64 },
    /// A location of a profile names a mapping that the profile does not have.
    UnknownMapping { series: u64, sample: u64 },
    /// A line of a profile names a function that the profile does not have.
    UnknownFunction { series: u64, sample: u64 },
    /// Two mappings, locations or functions of a profile have the same id.
    RepeatedId { series: u64, sample: u64 },
    /// An entry of the string table of a profile is not UTF-8.
    NotUtf8 { series: u64, sample: u64 },
    /// The frames of a sample of a profile are too long together.
    TooDeep { series: u64, sample: u64 },
    /// An entry of the string table of a profile is too long.
    LongText { series: u64, sample: u64 },
    /// With the rows of this profile the batch is too large.
    LargeBatch { series: u64, sample: u64 },
    /// A query that needs a selector has none.
    NoQuery,
    /// The text of a selector before its matchers is no profile type.
    BadType,
    /// The matchers of a selector do not read; `at` is the length of what does, in bytes.
    BadMatcher { at: u64 },
    /// A parameter is no time.
    BadTime { parameter: Parameter },
    /// The number `after`, which an answer has to have seen, does not read.
    BadAfter,
    /// The number `after` is above `drawn`, the last that the store gave out.
    NotDrawn { drawn: u64 },
    /// The store has no number left to give out; `drawn` is the last.
    Spent { drawn: u64 },
    /// The disk failed.
    DiskFault,
    /// A request has no head that reads.
    BadHead,
    /// A request does not tell the length of its body.
    NoLength,
    /// The body of a request is too long.
    TooLarge,
}

/// The fields of a refusal's reply, beside its name.
#[derive(Clone, Copy)]
pub(crate) enum Fields {
    None,
    /// The place of a series.
    Series(u64),
    /// The places of a series and of a label in it.
    Label(u64, u64),
    /// The places of a series and of a sample in it.
    Sample(u64, u64),
    /// The places of a series and of a sample in it, and a byte of its profile.
    Byte(u64, u64, u64),
    /// A byte of a text.
    At(u64),
    /// The last number that the store gave out.
    Drawn(u64),
    /// An end of a window of time.
    Window(Parameter),
}

/// The table of refusals: the name, the status (RFC 9110, section 15) and the fields of each.
pub(crate) fn row(fault: &Fault) -> (&'static str, u16, Fields)
    ensures name { result.0.now ≡ (row fault.now).name }
    ensures status { result.1 ≡ (row fault.now).status }
    ensures fields { result.2 ≡ (row fault.now).fields }
    ensures known { IsRefusalStatus result.1 }
{
    match *fault {
        Fault::NoRoute => ("NoRoute", 404, Fields::None),
        Fault::BadMethod => ("BadMethod", 405, Fields::None),
        Fault::Encoded => ("Encoded", 422, Fields::None),
        Fault::NotJson => ("NotJson", 400, Fields::None),
        Fault::BadShape => ("BadShape", 400, Fields::None),
        Fault::BadBase64 { series, sample } => ("BadBase64", 400, Fields::Sample(series, sample)),
        Fault::BadLabelName { series, label } => (
            "BadLabelName",
            422,
            Fields::Label(series, label),
        ),
        Fault::LongValue { series, label } => ("LongValue", 422, Fields::Label(series, label)),
        Fault::RepeatedLabel { series, label } => (
            "RepeatedLabel",
            422,
            Fields::Label(series, label),
        ),
        Fault::NoName { series } => ("NoName", 422, Fields::Series(series)),
        Fault::Compressed { series, sample } => ("Compressed", 422, Fields::Sample(series, sample)),
        Fault::Wire { series, sample, at } => ("Wire", 422, Fields::Byte(series, sample, at)),
        Fault::StringZero { series, sample } => ("StringZero", 422, Fields::Sample(series, sample)),
        Fault::StringIndex { series, sample } => (
            "StringIndex",
            422,
            Fields::Sample(series, sample),
        ),
        Fault::ValueCount { series, sample } => ("ValueCount", 422, Fields::Sample(series, sample)),
        Fault::UnknownLocation { series, sample } => (
            "UnknownLocation",
            422,
            Fields::Sample(series, sample),
        ),
        Fault::UnknownMapping { series, sample } => (
            "UnknownMapping",
            422,
            Fields::Sample(series, sample),
        ),
        Fault::UnknownFunction { series, sample } => (
            "UnknownFunction",
            422,
            Fields::Sample(series, sample),
        ),
        Fault::RepeatedId { series, sample } => ("RepeatedId", 422, Fields::Sample(series, sample)),
        Fault::NotUtf8 { series, sample } => ("NotUtf8", 422, Fields::Sample(series, sample)),
        Fault::TooDeep { series, sample } => ("TooDeep", 422, Fields::Sample(series, sample)),
        Fault::LongText { series, sample } => ("LongText", 422, Fields::Sample(series, sample)),
        Fault::LargeBatch { series, sample } => ("LargeBatch", 422, Fields::Sample(series, sample)),
        Fault::NoQuery => ("NoQuery", 400, Fields::None),
        Fault::BadType => ("BadType", 400, Fields::None),
        Fault::BadMatcher { at } => ("BadMatcher", 400, Fields::At(at)),
        Fault::BadTime { parameter } => ("BadTime", 400, Fields::Window(parameter)),
        Fault::BadAfter => ("BadAfter", 400, Fields::None),
        Fault::NotDrawn { drawn } => ("NotDrawn", 409, Fields::Drawn(drawn)),
        Fault::Spent { drawn } => ("Spent", 503, Fields::Drawn(drawn)),
        Fault::DiskFault => ("DiskFault", 503, Fields::None),
        Fault::BadHead => ("BadHead", 400, Fields::None),
        Fault::NoLength => ("NoLength", 411, Fields::None),
        Fault::TooLarge => ("TooLarge", 413, Fields::None),
    }
}

impl Fault {
    /// The status of the reply to a refusal.
    pub fn status(&self) -> u16
        ensures status { result ≡ status_of self.now }
        ensures known { IsRefusalStatus result }
    {
        row(self).1
    }
}
