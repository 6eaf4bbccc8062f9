//! Tests of the crates that read and write texts: tokens, layouts, texts of terms, formats and tables.
#![tactic(auto)]

#[cfg(test)]
mod formats;
#[cfg(test)]
mod layouts;
#[cfg(test)]
mod scanning;
#[cfg(test)]
mod tables;
#[cfg(test)]
mod term_texts;
