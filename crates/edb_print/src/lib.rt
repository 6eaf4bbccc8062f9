//! The text of a module: `specs/` says which pieces it has and how each is spelled.
#![tactic(auto, using(edb_syntax::proofs::Lists::lists, crate::proofs::Texts::texts))]

mod clauses;
mod expressions;
mod gaps;
mod laws;
mod marks;
mod modules;
mod operators;
mod patterns;
mod tokens;

pub use laws::{layout_reads, printed_reads};
pub use modules::module_text;
