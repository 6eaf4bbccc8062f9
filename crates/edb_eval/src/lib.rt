//! The machine that makes the moves of one running expression.
#![tactic(auto, using(edb_lang::proofs::Lists::lists, crate::proofs::Feeds::feeds))]

mod body;
mod calls;
mod focus;
mod frames;
mod glance;
mod machine;
mod process;
mod reasons;
mod running;
mod stack;

pub use body::Body;
pub use glance::Kind;
pub use machine::Machine;
pub use process::Process;
