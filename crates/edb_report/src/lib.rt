//! The transcript of a session: the text of each entry of its journal. The definitions are in specs/:
//! how lines name places and functions, the texts of replies, and the lines of entries. The words of
//! commands and the small words are those of `edb_words`.
#![tactic(auto)]

mod entries;
mod places;
mod replies;

pub use entries::{entry_text, render};
