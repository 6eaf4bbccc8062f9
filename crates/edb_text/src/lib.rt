//! Texts of terms: what `display` prints and what a transcript shows.
#![tactic(auto, using(edb_lang::proofs::Lists::lists), unfolding(edb_lang::specs::TermText::text, edb_lang::specs::TermText::tuple_text, edb_lang::specs::TermText::items_text, edb_lang::specs::TermText::term_text))]

mod atoms;
mod terms;

pub use atoms::{put_atom, put_quoted};
pub use terms::{put_term, term_text};
