//! Tables by name and number: the built-ins by name and arity, with how each may be called, and the
//! entries of a journal's text by word and number of fields.
#![tactic(auto)]

mod built_ins;
mod kinds;
mod marking;
mod rows;
mod tables;

pub use built_ins::find_built_in;
pub use kinds::Marks;
pub use marking::{marks, marks_of};
pub use rows::{Row, find};
pub use tables::{
    ENTRIES, ERLANG, INT, IO, LISTS, find_entry, find_erlang, find_int, find_io, find_lists,
};
