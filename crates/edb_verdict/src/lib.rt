//! The verdict on a text: the module without faults that it is, or its first fault.
#![tactic(auto)]

mod fault;
mod laws;
mod lines;
mod top;

pub use fault::ModuleFault;
pub use laws::{accepted_is_bounded, one_verdict_a_text, trees_are_bounded};
pub use lines::fault_text;
pub use top::verdict;
