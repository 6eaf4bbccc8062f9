//! What is said of a built-in.

/// How a built-in may be called, and whether it is a shared act.
#[derive(Clone, Copy, PartialEq, Eq, Debug)]
pub struct Marks {
    /// Called without its module, if the calling module has no function of its name and arity.
    pub auto: bool,
    /// Allowed in a guard.
    pub guard: bool,
    /// It acts on what processes share, or prints. What isn't shared only computes.
    pub shared: bool,
}
