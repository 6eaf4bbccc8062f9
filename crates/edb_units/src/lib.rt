//! Modules as a machine reads them: a function by its name and arity, an export and a fun form are found by halving.
#![tactic(auto)]

mod collect;
mod form;
mod order;
mod search;
mod unit;

pub use form::Form;
pub use unit::Unit;
