//! The journal's text, and how it is written.
#![tactic(auto, unfolding(crate::specs::Lines::line, edb_fields::specs::Separators::fields))]

mod journals;
mod replies;
mod writing;

pub use journals::write_journal;
pub use writing::{entry_line, put_entry};
