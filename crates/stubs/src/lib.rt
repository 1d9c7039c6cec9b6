//! Parts without rows, for tests of what stands on parts alone. Programs do not stand on this
//! crate.
#![tactic(auto)]

mod stub;

pub use stub::{Stub, loose};
