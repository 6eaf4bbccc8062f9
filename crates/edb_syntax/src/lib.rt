//! The syntax trees of a module: functions, clauses, guards, expressions and patterns, equal copies of
//! them, and how deep they are.
#![tactic(auto, using(crate::proofs::Lists::lists))]

mod clause;
mod expression;
mod forms;
mod guard;
mod modules;
mod operation;
mod pattern;
mod qualifier;
mod sequence;

pub use clause::{CatchClause, Clause};
pub use expression::{Expr, ExprNode};
pub use guard::{Alternative, Guard, GuardTest};
pub use modules::{Export, Function, Module};
pub use operation::Operation;
pub use pattern::{Pattern, PatternNode};
pub use qualifier::{Qualifier, QualifierNode};
pub use sequence::Sequence;
