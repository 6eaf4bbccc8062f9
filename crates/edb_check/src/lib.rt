//! The checker: refuses a module whose variables, calls, exports or guards break a rule, and tells the first fault.
#![tactic(auto, using(crate::proofs::Walking::walking))]

mod checked;
mod code;
mod expressions;
mod fault;
mod funs;
mod guard_walk;
mod guards;
mod known;
mod laws;
mod modules;
mod names;
mod operands;
mod patterns;
mod scope;
mod status;
mod stops;
mod tries;
mod verdict;
mod walk;
mod ways;

pub use checked::Checked;
pub use code::Code;
pub use fault::{CheckFault, CheckKind};
pub use laws::{accepted_or_refused, bound_by_each_way, never_both, one_verdict};
pub use status::Status;
pub use verdict::check;
