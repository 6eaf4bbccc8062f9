//! What the move of a leaf does.
#![tactic(auto)]

mod choosing;
mod collecting;
mod generators;
mod leaves;
mod making;
mod opening;
mod raising;
mod reading;

pub use choosing::take_clause;
pub use generators::{copy_drawing, draw};
pub use leaves::leaf_plan;
pub use opening::resume;
pub use raising::{failing, failing_with};
