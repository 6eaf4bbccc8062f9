//! Texts of formats: what `~p`, `~w`, `~s`, `~n` and `~~` make of terms. `specs/Formats` has the rules.
#![tactic(auto, using(edb_lang::proofs::Lists::lists, crate::proofs::Pieces::pieces), unfolding(edb_lang::specs::TermText::plain_text, edb_lang::specs::TermText::term_text, crate::specs::Formats::format_text_of, crate::specs::Putting::directed_text_of))]

mod formats;
mod strings;
mod unwritten;

pub use formats::{BadFormat, format_text, plain_text};
