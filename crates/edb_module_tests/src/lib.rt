//! Tests of the crates that read modules: syntax trees, the parser, the checker, and verdicts on whole texts.
#![tactic(auto)]

#[cfg(test)]
mod checking;
#[cfg(test)]
mod codes;
#[cfg(test)]
mod parsing;
#[cfg(test)]
mod terms;
#[cfg(test)]
mod texts;
#[cfg(test)]
mod trees;
#[cfg(test)]
mod verdicts;
