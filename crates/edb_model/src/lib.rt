//! What a program of the language does: running expressions, pure moves, shared acts, the plain state
//! of all processes, and its steps. The definitions stand in specs/; here are the types that name them.
#![tactic(auto)]

mod code;
mod tables;

pub use code::{Checked, Code};
pub use tables::{MonitorRow, NameRow, ProcRow, SignalRow, Tables};
