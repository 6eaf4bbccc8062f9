//! The grammar: which trees the tokens of a text have. `specs/` says it, as relations between whole lists of tokens
//! and trees; here are its laws.
#![tactic(auto)]

mod laws;

pub use laws::{one_expression, one_form, one_literal, one_module};
