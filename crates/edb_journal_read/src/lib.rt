//! The journal's text, first version, read back: the journal whose text it is, or the line at which it is refused.
#![tactic(auto)]

mod entries;
mod journals;
mod laws;

pub use entries::read_entry;
pub use journals::{JournalError, read_journal};
pub use laws::journals_read_once;
