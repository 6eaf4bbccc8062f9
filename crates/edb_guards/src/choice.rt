//! What a choice of a clause comes to.

use edb_lang::Captured;
use edb_syntax::Sequence;

/// A clause that is chosen.
#[derive(Drop)]
pub struct Choice<'a> {
    /// The pairs that its patterns bound, oldest first.
    pub pairs: Vec<Captured>,
    /// Its sequence.
    pub body: &'a Sequence,
}
