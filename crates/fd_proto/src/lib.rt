//! The messages of pprof's `profile.proto` (github.com/google/pprof, "proto/profile.proto"), read
//! into plain numbers, with their texts by places and indexes.
//!
//!     Profile     1 ValueType *   2 Sample *   3 Mapping *   4 Location *   5 Function *
//!                 6 text *        the string table
//!                 7, 8, 14        text indexes     13 text indexes, packed
//!                 9 time          10 duration      11 ValueType, of the period   12 period
//!     ValueType   1 kind          2 unit
//!     Sample      1 location ids, the leaf first   2 values       3 Label *
//!     Label       1 key           2 text           4 unit
//!     Mapping     1 id            5, 6 text indexes
//!     Location    1 id            2 mapping id     3 address      4 Line *
//!     Line        1 function id
//!     Function    1 id            2 name           3, 4 text indexes
//!
//! `*` marks what may repeat. Fields that are not named here are skipped.
#![tactic(auto)]

mod contents;
mod fault;
mod flaws;
mod indexes;
mod message;
mod place;
mod profile;
mod raw;
mod reader;

pub use fault::ProtoFault;
pub use place::Place;
pub use profile::read;
pub use raw::{Raw, RawFunction, RawLabel, RawLocation, RawSample, RawType};
