//! What a caller sees of a Body.

use edb_lang::{Bindings, Name};

/// The innermost call of a process: which function it calls, at which level, and its variables.
#[derive(Clone, Copy)]
pub struct Body<'m> {
    pub module: &'m Name,
    pub version: u32,
    pub name: &'m Name,
    pub arity: usize,
    pub level: u64,
    pub bindings: &'m Bindings,
}
