//! The answers of operators and of the built-ins that touch nothing but their arguments: the rules are in specs/, and
//! the crates above have the code.
#![tactic(auto)]

use edb_lang::{Class, Term};

/// An exception, as an operator or a built-in raises it.
#[derive(Drop)]
pub struct Raise {
    pub class: Class,
    pub reason: Term,
}
