//! The session: modules and a script are read, run, and written as a transcript.
#![tactic(auto, using(edb_lang::proofs::Lists::lists))]

mod ending;
mod laws;
mod render;
mod top;

pub use ending::{End, Ending};
pub use laws::written_journals_are_read;
pub use top::session;
