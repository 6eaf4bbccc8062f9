//! What a machine doesn't run yet: whether a module writes any of it.
#![tactic(auto, using(edb_syntax::proofs::Lists::lists))]

mod calls;
mod walk;

pub use walk::is_beyond;
