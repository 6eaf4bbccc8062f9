//! Why no tree is answered.

/// The first form that has no tree.
#[derive(Clone, Copy, Debug, PartialEq, Eq, Drop)]
pub struct FormFault {
    /// Which form of the text it is: 1 for the first.
    pub form: u64,
    /// The line of its first token; 1 where the text has no token.
    pub line: u32,
}
