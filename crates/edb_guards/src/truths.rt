//! Truth values.

ghost use Rattle.std.specs.Prelude.{◌≡◌, IfOk, Some};
ghost use Rattle.std.specs.Option.{option_and_then, option_map};
ghost use Rattle.edb_lang.specs.Terms as terms;
ghost use Rattle.edb_moves.specs.Guards as spec;
ghost use Rattle.edb_pure.specs.Truths.{truth, truth_of};
ghost use Rattle.edb_guards.specs.Views.{value_of};

use crate::value::Value;
use edb_lang::{Name, Node, Term};
use std::alloc::{AllocError, Global};

/// The truth value that a test's value is.
pub(crate) fn truth_value(value: &Option<Value>) -> Option<bool>
    ensures { result ≡ option_and_then truth_of (option_map value_of value.now) }
{
    match value {
        Some(value) => term_truth(value.term()),
        None => None,
    }
}

/// Whether a test's value is there, and is `true`.
pub(crate) fn is_true(value: &Option<Value>) -> bool
    ensures { result ≡ spec.is_true (option_map value_of value.now) }
{
    match truth_value(value) {
        Some(value) => value,
        None => false,
    }
}

/// The truth value that a term is.
fn term_truth(term: &Term) -> Option<bool>
    ensures { result ≡ truth_of term.now }
{
    match &term.node {
        Node::Atom(name) => named(name),
        _ => None,
    }
}

/// The truth value of this name.
fn named(name: &Name) -> Option<bool>
    ensures { result ≡ truth_of (terms.atom name.now) }
{
    if name.as_str() == "true" {
        return Some(true);
    }
    if name.as_str() == "false" {
        return Some(false);
    }
    None
}

/// The atom of a truth value.
pub(crate) fn truth_term(alloc: Global, value: bool) -> Result<Option<Term>, AllocError>
    ensures { IfOk result (λ made. made ≡ Some (truth value)) }
{
    let text = if value { "true" } else { "false" };
    let name = Name::from_str(alloc, text)?;
    Ok(Some(Term::atom(name)))
}
