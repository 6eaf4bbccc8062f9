//! Tests of the tool and of the outside: runs over memory, layouts, and what the system does.
#![tactic(auto)]

#[cfg(test)]
mod layouts;
#[cfg(test)]
mod outside;
#[cfg(test)]
mod tests;
