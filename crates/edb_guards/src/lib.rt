//! Guards, and the choice of a clause.
#![tactic(auto)]

mod answers;
mod calls;
mod catches;
mod choice;
mod clauses;
mod evaluate;
mod guards;
mod scope;
mod truths;
mod value;

pub use catches::choose_catch;
pub use choice::Choice;
pub use clauses::choose;
pub use guards::{guard_holds, guard_holds_under};
pub use value::{Value, terms};
