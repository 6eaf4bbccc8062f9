//! Truth values: comparisons, and the operators on the atoms `true` and `false`.

ghost use Rattle.std.specs.Prelude.{◌≡◌, ◌&&◌, ◌||◌, not, IfOk};
ghost use Rattle.std.specs.Ordering.{is_eq, is_ne, is_lt, is_le, is_gt, is_ge};
ghost use Rattle.edb_lang.specs.Terms as terms;
ghost use Rattle.edb_pure.specs.Truths as spec;

use crate::raises::{Answer, badarg};
use edb_lang::{Name, Node, Term};
use std::alloc::{AllocError, Global};

// The atom of a truth value, as a result.
pub(crate) fn truth(alloc: Global, value: bool) -> Result<Answer, AllocError>
    ensures { IfOk result (λ r. r ≡ spec.truth_answer value) }
{
    let text = if value { "true" } else { "false" };
    let name = Name::from_str(alloc, text)?;
    Ok(Ok(Term::atom(name)))
}

// The truth value that a term is.
fn truth_of(value: &Term) -> Option<bool>
    ensures { result ≡ spec.truth_of value.now }
{
    match &value.node {
        Node::Atom(name) => named(name),
        _ => None,
    }
}

// The truth value of this name.
fn named(name: &Name) -> Option<bool>
    ensures { result ≡ spec.truth_of (terms.atom name.now) }
{
    if name.as_str() == "true" {
        return Some(true);
    }
    if name.as_str() == "false" {
        return Some(false);
    }
    None
}

// `==`, and `=:=`: whether the two are one term.
pub(crate) fn equal(alloc: Global, left: &Term, right: &Term) -> Result<Answer, AllocError>
    ensures { IfOk result (λ r. r ≡ spec.comparison is_eq left.now right.now) }
{
    truth(alloc, left.cmp(right).is_eq())
}

// `/=`, and `=/=`: whether the two are different terms.
pub(crate) fn unequal(alloc: Global, left: &Term, right: &Term) -> Result<Answer, AllocError>
    ensures { IfOk result (λ r. r ≡ spec.comparison is_ne left.now right.now) }
{
    truth(alloc, left.cmp(right).is_ne())
}

// `=<`: whether the left term comes first in the order, or the two are one.
pub(crate) fn at_most(alloc: Global, left: &Term, right: &Term) -> Result<Answer, AllocError>
    ensures { IfOk result (λ r. r ≡ spec.comparison is_le left.now right.now) }
{
    truth(alloc, left.cmp(right).is_le())
}

// `<`: whether the left term comes first in the order.
pub(crate) fn less_than(alloc: Global, left: &Term, right: &Term) -> Result<Answer, AllocError>
    ensures { IfOk result (λ r. r ≡ spec.comparison is_lt left.now right.now) }
{
    truth(alloc, left.cmp(right).is_lt())
}

// `>=`: whether the right term comes first in the order, or the two are one.
pub(crate) fn at_least(alloc: Global, left: &Term, right: &Term) -> Result<Answer, AllocError>
    ensures { IfOk result (λ r. r ≡ spec.comparison is_ge left.now right.now) }
{
    truth(alloc, left.cmp(right).is_ge())
}

// `>`: whether the right term comes first in the order.
pub(crate) fn greater_than(alloc: Global, left: &Term, right: &Term) -> Result<Answer, AllocError>
    ensures { IfOk result (λ r. r ≡ spec.comparison is_gt left.now right.now) }
{
    truth(alloc, left.cmp(right).is_gt())
}

// `and`: whether both are `true`.
pub(crate) fn both(alloc: Global, left: &Term, right: &Term) -> Result<Answer, AllocError>
    ensures { IfOk result (λ r. r ≡ spec.of_truths ◌&&◌ left.now right.now) }
{
    match (truth_of(left), truth_of(right)) {
        (Some(left), Some(right)) => truth(alloc, left && right),
        _ => badarg(alloc),
    }
}

// `or`: whether at least one is `true`.
pub(crate) fn either(alloc: Global, left: &Term, right: &Term) -> Result<Answer, AllocError>
    ensures { IfOk result (λ r. r ≡ spec.of_truths ◌||◌ left.now right.now) }
{
    match (truth_of(left), truth_of(right)) {
        (Some(left), Some(right)) => truth(alloc, left || right),
        _ => badarg(alloc),
    }
}

// `xor`: whether one is `true` and the other `false`.
pub(crate) fn one_alone(alloc: Global, left: &Term, right: &Term) -> Result<Answer, AllocError>
    ensures { IfOk result (λ r. r ≡ spec.of_truths spec.one_alone left.now right.now) }
{
    match (truth_of(left), truth_of(right)) {
        (Some(left), Some(right)) => truth(alloc, left ^ right),
        _ => badarg(alloc),
    }
}

// `not`: the other truth value.
pub(crate) fn opposite(alloc: Global, value: &Term) -> Result<Answer, AllocError>
    ensures { IfOk result (λ r. r ≡ spec.of_truth not value.now) }
{
    match truth_of(value) {
        Some(value) => truth(alloc, !value),
        None => badarg(alloc),
    }
}
