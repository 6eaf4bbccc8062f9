//! What stands in the line of a command that was answered, read back: the command, and its reply.
#![tactic(auto)]

mod calls;
mod finding;
mod replies;
mod words;

pub use calls::read_call;
pub use finding::{read_action, read_kind};
pub use replies::read_reply;
pub use words::{read_word, split_word};
