//! An expression that runs, as the layers round its redex.

use edb_stack::{Body, Layer, Redex, Stack};

/// An expression that runs: the layers round the hole, the innermost Body, what stands in the hole, and how many Bodies
/// there are. Between moves it is `Sound` (specs/Standing).
#[derive(Drop)]
pub struct Running<'a> {
    pub layers: Stack<Layer<'a>>,
    pub here: Body<'a>,
    pub redex: Redex<'a>,
    pub bodies: usize,
}
