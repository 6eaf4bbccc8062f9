//! Operators and built-ins, as a program calls them: the built-ins by their index in the table.
#![tactic(auto)]

mod arguments;
mod calls;

pub use calls::{call_bif, call_refs, is_pure};
pub use edb_operators::{operate, operate_one};
