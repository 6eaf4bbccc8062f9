//! Which version of a module a call runs.
#![tactic(auto)]

mod versions;

pub use versions::Versions;
