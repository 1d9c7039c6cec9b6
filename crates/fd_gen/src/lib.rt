//! Made bodies: profiles to fill a store with, the same for each seed. A body is what
//! `POST /profiles/writeraw` takes; all that varies in it comes from the words of a `Pcg32`.
//!
//!     drawn     the job, one of 4; production or not; 1 to 20 samples, and for each
//!               1 to 8 of the 50 functions, the leaf first, and a value from 1 to 1,000
//!     labels    __name__ gen_cpu, job job-J, and in production env prod
//!     profile   cpu in nanoseconds, of the time k seconds after 1970, with all 50 functions
//!     field     key, value; by rising number, a number that is 0 left out
#![tactic(auto)]

mod body;
mod draws;
mod fields;
mod laws;
mod profile;

pub use body::made_body;
pub use laws::field_laws;
