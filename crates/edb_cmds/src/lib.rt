//! The reader of scripts: the lines of one console, with one start among them.
#![tactic(auto)]

mod commands;
mod fields;
mod list;
mod listing;
mod script;
mod words;

pub use listing::{one_listing, read_commands};
pub use script::ScriptFault;
