//! Tests of the journal's text and of its fields; the texts were written by hand.
#![tactic(auto)]

#[cfg(test)]
mod fields;
#[cfg(test)]
mod reading;
#[cfg(test)]
mod texts;
