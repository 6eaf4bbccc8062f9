//! How a variable is bound.

/// Whether a variable is bound on each way to a place, or only on some.
#[derive(Clone, Copy, PartialEq, Eq, Debug)]
pub enum Status {
    Sure,
    Partly,
}
