//! A module and a script of any size, generated: a run with so many workers, each of which stops once.
#![tactic(auto, unfolding(crate::specs::Generated::module_text, crate::specs::Generated::script_text))]

mod texts;

pub use texts::{Generated, generate};
