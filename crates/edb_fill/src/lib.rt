//! What the move of a layer does that is filled by its value.
#![tactic(auto)]

mod choices;
mod fill;
mod lists;
mod sequences;

pub use fill::filled_plan;
