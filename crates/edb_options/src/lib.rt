//! The words of `edb`: its options, the script and the files.
#![tactic(auto)]

mod matching;
mod request;

pub use request::{Options, Request, read_options};
