//! Tests of what a session's rules stand on: lines of the transcript, scripts, journals and breakpoints.
//! They are here so that no crate above those crates proves their tests again.
#![tactic(auto)]

#[cfg(test)]
mod breakpoints;
#[cfg(test)]
mod journals;
#[cfg(test)]
mod lines;
#[cfg(test)]
mod scripts;
