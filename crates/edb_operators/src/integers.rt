//! Arithmetic: each operation is that of all integers, and its result has to be in the range.

ghost use Rattle.std.specs.Prelude.{◌≡◌, ℤ, IfOk, MatchOption};
ghost use Rattle.edb_lang.specs.Terms as terms;
ghost use Rattle.edb_pure.specs.Answers as answer;
ghost use Rattle.edb_pure.specs.Integers as spec;

use crate::raises::{Answer, badarith, system_limit};
use edb_lang::{Node, Term};
use std::alloc::{AllocError, Global};

// The integer that a term is.
pub(crate) fn integer_of(value: &Term) -> Option<i128>
    ensures { result ≡ spec.integer_of value.now }
{
    match &value.node {
        Node::Int(value) => Some(*value),
        _ => None,
    }
}

// The integers that two terms are.
pub(crate) fn integers(left: &Term, right: &Term) -> Option<(i128, i128)>
    ensures { MatchOption result ((f : ℤ → ℤ → answer.Answer) → spec.of_integers f left.now right.now ≡ answer.badarith) (λ p. (left.now ≡ terms.int p.0) × (right.now ≡ terms.int p.1)) }
{
    let left = integer_of(left)?;
    let right = integer_of(right)?;
    Some((left, right))
}

// `+`: the sum; `system_limit` if it is out of the range.
pub(crate) fn add(alloc: Global, left: &Term, right: &Term) -> Result<Answer, AllocError>
    ensures { IfOk result (λ r. r ≡ spec.of_integers spec.add left.now right.now) }
{
    let Some((left, right)) = integers(left, right) else {
        return badarith(alloc);
    };
    match left.checked_add(right) {
        Some(sum) => Ok(Ok(Term::int(sum))),
        None => system_limit(alloc),
    }
}

// `-`: the difference; `system_limit` if it is out of the range.
pub(crate) fn subtract(alloc: Global, left: &Term, right: &Term) -> Result<Answer, AllocError>
    ensures { IfOk result (λ r. r ≡ spec.of_integers spec.subtract left.now right.now) }
{
    let Some((left, right)) = integers(left, right) else {
        return badarith(alloc);
    };
    match left.checked_sub(right) {
        Some(difference) => Ok(Ok(Term::int(difference))),
        None => system_limit(alloc),
    }
}

// `*`: the product; `system_limit` if it is out of the range.
pub(crate) fn multiply(alloc: Global, left: &Term, right: &Term) -> Result<Answer, AllocError>
    ensures { IfOk result (λ r. r ≡ spec.of_integers spec.multiply left.now right.now) }
{
    let Some((left, right)) = integers(left, right) else {
        return badarith(alloc);
    };
    match left.checked_mul(right) {
        Some(product) => Ok(Ok(Term::int(product))),
        None => system_limit(alloc),
    }
}

// `div`: the quotient, rounded toward zero; `badarith` for the divisor 0, `system_limit` if it is out of the range.
pub(crate) fn divide(alloc: Global, left: &Term, right: &Term) -> Result<Answer, AllocError>
    ensures { IfOk result (λ r. r ≡ spec.of_integers spec.quotient left.now right.now) }
{
    let Some((left, right)) = integers(left, right) else {
        return badarith(alloc);
    };
    if right == 0 {
        return badarith(alloc);
    }
    match left.checked_div(right) {
        Some(quotient) => Ok(Ok(Term::int(quotient))),
        None => system_limit(alloc),
    }
}

// `rem`: the remainder, with the sign of the left operand; `badarith` for the divisor 0.
pub(crate) fn remainder(alloc: Global, left: &Term, right: &Term) -> Result<Answer, AllocError>
    ensures { IfOk result (λ r. r ≡ spec.of_integers spec.remainder left.now right.now) }
{
    let Some((left, right)) = integers(left, right) else {
        return badarith(alloc);
    };
    if right == 0 {
        return badarith(alloc);
    }
    Ok(Ok(Term::int(left.wrapping_rem(right))))
}

// `+` before one operand: the integer itself.
pub(crate) fn plus(alloc: Global, value: &Term) -> Result<Answer, AllocError>
    ensures { IfOk result (λ r. r ≡ spec.of_integer spec.integer_answer value.now) }
{
    match integer_of(value) {
        Some(value) => Ok(Ok(Term::int(value))),
        None => badarith(alloc),
    }
}

// `-` before one operand: the integer with the other sign; `system_limit` if it is out of the range.
pub(crate) fn negate(alloc: Global, value: &Term) -> Result<Answer, AllocError>
    ensures { IfOk result (λ r. r ≡ spec.of_integer spec.negate value.now) }
{
    let Some(value) = integer_of(value) else {
        return badarith(alloc);
    };
    match value.checked_neg() {
        Some(negated) => Ok(Ok(Term::int(negated))),
        None => system_limit(alloc),
    }
}
