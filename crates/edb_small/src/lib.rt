//! The reader of the small language: a text becomes its module exactly where it is one of the
//! language. `specs/` says which texts are, and of which module.
#![tactic(auto, using(edb_lang::proofs::Lists::lists))]

mod conditions;
mod functions;
mod heads;
mod scope;
mod sums;
mod tokens;
mod top;
mod walks;

pub use top::{modules_are_bounded, one_module, read_module};
