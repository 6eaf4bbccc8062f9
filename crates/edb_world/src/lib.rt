//! The world of a session: its processes, which take turns, its console, whose commands it serves, and
//! the journal that it keeps of both.
#![tactic(auto, using(edb_lang::proofs::Lists::lists))]

mod acts;
mod commands;
mod debuggee;
mod live;
mod slices;
mod state;
mod turns;
mod world;

pub use world::{Outcome, run_world};
