ghost use Rattle.std.specs.Prelude.{◌≡◌};
ghost use Rattle.jiff.specs.Words.{parse_timestamp};
ghost use Rattle.fd_select.specs.Moments.{whole_number, instant_millis, moment_of};

use jiff::Timestamp;
use std::error::Error;
use std::fmt;

/// Why a text is no time.
#[derive(Debug, Clone, Copy, PartialEq, Eq)]
pub enum MomentFault {
    /// Neither a number of milliseconds nor an instant.
    BadTime,
    /// Want of memory.
    NoMemory,
}

impl fmt::Display for MomentFault {
    fn fmt<W: fmt::Write>(&self, f: &mut fmt::Formatter<W>) -> fmt::Result {
        match self {
            MomentFault::BadTime => write!(f, "no time"),
            MomentFault::NoMemory => write!(f, "out of memory"),
        }
    }
}

impl Error for MomentFault {}

/// A number with no `+` in front.
fn whole_number(text: &str) -> Option<i64>
    ensures { result ≡ whole_number text.now }
{
    if text.starts_with('+') {
        return None;
    }
    text.parse::<i64>().ok()
}

fn instant(text: &str) -> Result<i64, MomentFault>
    ensures { result ≡ instant_millis (parse_timestamp text.now) }
{
    match text.parse::<Timestamp>() {
        Ok(instant) => Ok(instant.as_nanosecond().div_euclid(1_000_000) as i64),
        Err(jiff::Error::OutOfMemory) => Err(MomentFault::NoMemory),
        Err(_) => Err(MomentFault::BadTime),
    }
}

/// The time that a text says, in milliseconds since the Unix epoch: a whole number, with no `+`
/// in front, or an instant in RFC 3339 and its Temporal extensions, as `2024-06-19T17:30:05Z`,
/// rounded down to a whole millisecond. It takes no memory.
pub fn moment(text: &str) -> Result<i64, MomentFault>
    ensures { result ≡ moment_of text.now }
{
    match whole_number(text) {
        Some(millis) => Ok(millis),
        None => instant(text),
    }
}
