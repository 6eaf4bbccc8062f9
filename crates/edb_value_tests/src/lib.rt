//! Tests of the operators and the built-ins: what each gives or raises, by Erlang's manual, and the limits at their
//! edges. The rows are texts of Erlang terms.
#![tactic(auto)]

#[cfg(test)]
mod built_ins;
#[cfg(test)]
mod operators;
#[cfg(test)]
mod terms;
