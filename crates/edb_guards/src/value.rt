//! Values that may be only lent.

ghost use Rattle.std.specs.Prelude.{◌≡◌, IfOk, map};
ghost use Rattle.std.specs.Option.{option_copied, option_map};
ghost use Rattle.edb_guards.specs.Views.{value_of};

use edb_lang::Term;
use std::alloc::{AllocError, Global};

/// A value: one that is only lent, as a variable's is, or one that was made.
#[derive(Drop)]
pub enum Value<'a> {
    Lent(&'a Term),
    Made(Term),
}

impl<'a> Value<'a> {
    /// The term.
    pub fn term(&self) -> &Term
        ensures { result.now ≡ value_of self.now }
    {
        match self {
            Value::Lent(term) => *term,
            Value::Made(term) => term,
        }
    }
}

/// A term that was made, as a value.
pub(crate) fn made<'a>(term: Option<Term>) -> Option<Value<'a>>
    ensures { option_map value_of result ≡ term }
{
    match term {
        Some(term) => Some(Value::Made(term)),
        None => None,
    }
}

/// The value of a variable, as a value.
pub(crate) fn lent<'a>(term: Option<&'a Term>) -> Option<Value<'a>>
    ensures { option_map value_of result ≡ option_copied term.entry }
{
    match term {
        Some(term) => Some(Value::Lent(term)),
        None => None,
    }
}

/// The terms of values, in their order. `AllocError` only if out of memory.
pub fn terms<'b>(alloc: Global, values: &'b [Value]) -> Result<Vec<&'b Term>, AllocError>
    ensures { IfOk result (λ terms. map (λ t. t.now) terms.items ≡ map value_of values.now) }
{
    let mut terms = Vec::new(alloc);
    for value in values {
        terms.push(value.term())?;
    }
    Ok(terms)
}
