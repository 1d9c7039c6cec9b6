//! Profiles in pprof's format, uncompressed: what they mean, and why they are refused. The messages
//! are read by `fd_proto`; here their indexes and ids are looked up.
//!
//!     sample -- location ids --> locations -- function ids --> functions -- text index --> text
//!            -- labels --------> key and text, by text indexes
//!            -- values           one for each sample type, by its place
//!
//!     stack    the leaf's location first; of a location's lines the innermost call first
//!     frame    its function's name; where the id is 0, or the location has no lines, the
//!              address as `0x` and sixteen digits
//!     text 0   the empty text
#![tactic(auto)]

mod builder;
mod catalog;
mod checks;
mod fault;
mod frames;
mod index;
mod limits;
mod numbers;
mod profile;
mod profile_survey;
mod reader;
mod sizes;
mod tables;
mod texts;
mod winners;

pub use fault::ProfileFault;
pub use limits::{MOST_STACK_BYTES, MOST_TEXT_BYTES};
pub use profile::{Profile, Sample, Samples, ValueType, ValueTypes, Wholes};
pub use profile_survey::Survey;
pub use reader::{read_profile, survey};
