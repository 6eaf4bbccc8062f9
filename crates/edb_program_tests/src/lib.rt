//! Tests of what a program works with: terms, their limits and their lists, the modules of a run, and the reader of the small language.
//! No crate uses this one, so what it tests is proved once.
#![tactic(auto)]

#[cfg(test)]
mod programs;
#[cfg(test)]
mod small_modules;
#[cfg(test)]
mod terms;
