//! What a move does, told before anything is changed, and the way down to the next redex.
#![tactic(auto)]

mod path;
mod plan;
mod seen;
mod steps;

pub use path::{listed, under, way};
pub use plan::Plan;
pub use seen::{literal_term, see, see_all};
