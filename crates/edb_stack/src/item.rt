//! Operands that are evaluated.

use edb_lang::Term;
use edb_syntax::Expr;

/// An operand that is evaluated. None of these needs memory to be handed on.
#[derive(Drop)]
pub enum Item<'a> {
    /// A value.
    Value(Term),
    /// The value of the pair at this place among the bindings of the innermost Body, counted from 0 for the oldest.
    Placed(usize),
    /// An integer or an atom as it is written.
    Literal(&'a Expr),
}
