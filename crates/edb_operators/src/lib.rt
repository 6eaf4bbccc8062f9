//! The operators of expressions: what each gives of the values of its operands. The rules are edb_pure's.
#![tactic(auto)]

mod bits;
mod integers;
mod joins;
mod operators;
mod raises;
mod truths;

pub use operators::{operate, operate_one};
