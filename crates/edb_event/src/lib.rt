//! What happens in a session, and what is asked of it: the commands of consoles and their replies, the
//! entries of the journal with their weight and ranges, and the scripts. The definitions stand in
//! specs/: what an entry weighs, the ranges of its fields and of a command's, and what contracts see of a
//! journal and of scripts.
#![tactic(auto)]

mod call;
mod entry;
mod journal;
mod laws;
mod reply;
mod scripts;

pub use call::{AutoFlag, Call, Command, ProcStatus, TraceWord, Word};
pub use entry::{Cause, Entry, entry_weight};
pub use journal::Journal;
pub use laws::{added_command_is_last, other_consoles_stay};
pub use reply::{Refusal, Reply};
pub use scripts::Scripts;
