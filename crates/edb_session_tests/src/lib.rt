//! Tests of sessions: what they write and leave, over files and a sink in memory.
#![tactic(auto)]

#[cfg(test)]
mod journals;
#[cfg(test)]
mod tests;
