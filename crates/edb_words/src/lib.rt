//! The words of a session, each said once: commands, statuses, actions, flags, saved calls, refusals and
//! kinds of acts. What writes a transcript or a journal and what reads a script stand on them.
#![tactic(auto)]

mod commands;
mod finding;
mod names;
mod pieces;

pub use commands::put_call;
pub use finding::status_named;
pub use names::{
    ProcessForm, action_name, flag_name, kind_name, refusal_name, status_name, trace_name,
};
pub use pieces::{put_name, put_number, put_pid, put_process, put_text, put_word};
