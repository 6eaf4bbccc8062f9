//! The interpreter server: what a debugger's consoles ask, it answers by itself.
#![tactic(auto, using(edb_lang::proofs::Lists::lists))]

mod news;
mod refusals;
mod replies;
mod seen;
mod server;

pub use seen::{Frame, SeenCall, SeenStop};
pub use server::{Server, is_among};
