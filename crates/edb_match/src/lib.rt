//! Matching: whether a term matches a pattern, and what the pattern's variables are then bound to.
#![tactic(auto, using(crate::proofs::Lists::lists))]

mod bindings;
mod known;
mod lent;
mod matching;
mod texts;

pub use bindings::{match_all_new, match_new, matches};
pub use known::newest_value;
