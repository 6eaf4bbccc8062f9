//! How a process goes on from where it stands, as an order of a console asks it.
#![tactic(auto)]

mod mode;

pub use mode::{Mode, due};
