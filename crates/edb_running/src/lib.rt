//! An expression that runs, as the layers round its redex, and what a plan does to it.
#![tactic(auto)]

mod carry;
mod commit;
mod keep;
mod landing;
mod outward;
mod prepare;
mod rise;
mod running;
mod unwind;

pub use outward::is_tail;
pub use rise::Left;
pub use running::Running;
