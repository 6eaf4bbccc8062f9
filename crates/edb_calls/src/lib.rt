//! What an operation on values does: operators, tuples and lists, built-ins, and calls.
#![tactic(auto)]

mod becomes;
mod built_ins;
mod calls;
mod entering;
mod functions;
mod funs;
mod plan;
mod raises;
mod site;
mod terms;

pub use plan::call_plan;
pub use site::Site;
