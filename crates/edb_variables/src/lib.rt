//! The bindings of a call that runs: variables with their values, the newest pair last, which are put on and taken off
//! without memory.
#![tactic(auto)]

mod variables;

pub use variables::Variables;
