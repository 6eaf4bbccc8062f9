//! The code of a run as machines read it: each version of each module, found by halving.
#![tactic(auto)]

mod program;

pub use program::Program;
