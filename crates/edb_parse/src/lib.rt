//! The parser: the tokens of a text become the syntax trees of a module, or a fault names the first form
//! that has no tree.
#![tactic(auto)]

mod attributes;
mod bodies;
mod boxes;
mod calls;
mod choices;
mod clauses;
mod cursor;
mod expressions;
mod fault;
mod files;
mod forms;
mod functions;
mod funs;
mod handlers;
mod keeping;
mod lists;
mod literals;
mod operators;
mod patterns;
mod primaries;
mod qualifiers;
mod top;
mod unread;

pub use fault::FormFault;
pub use literals::parse_term;
pub use top::parse;
