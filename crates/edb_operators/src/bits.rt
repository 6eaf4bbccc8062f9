//! Bits: those of an integer are two's complement, of which 128 hold each integer of the range.

ghost use Rattle.std.specs.Prelude.{◌≡◌, ◌≤◌, ◌^◌, ◌*ℤ◌, ℤ, pos, FitsSigned, IfOk, SomeIff};
ghost use Rattle.std.specs.Int.{w128};
ghost use Rattle.edb_pure.specs.Integers.{of_integer, of_integers};
ghost use Rattle.edb_pure.specs.Bits as spec;

use crate::integers::{integer_of, integers};
use crate::raises::{Answer, badarith, system_limit};
use edb_lang::Term;
use std::alloc::{AllocError, Global};

// `band`: the bits that both have.
pub(crate) fn both_bits(alloc: Global, left: &Term, right: &Term) -> Result<Answer, AllocError>
    ensures { IfOk result (λ r. r ≡ of_integers spec.both_bits left.now right.now) }
{
    match integers(left, right) {
        Some((left, right)) => Ok(Ok(Term::int(left & right))),
        None => badarith(alloc),
    }
}

// `bor`: the bits that at least one has.
pub(crate) fn either_bits(alloc: Global, left: &Term, right: &Term) -> Result<Answer, AllocError>
    ensures { IfOk result (λ r. r ≡ of_integers spec.either_bits left.now right.now) }
{
    match integers(left, right) {
        Some((left, right)) => Ok(Ok(Term::int(left | right))),
        None => badarith(alloc),
    }
}

// `bxor`: the bits that one alone has.
pub(crate) fn one_bits(alloc: Global, left: &Term, right: &Term) -> Result<Answer, AllocError>
    ensures { IfOk result (λ r. r ≡ of_integers spec.one_bits left.now right.now) }
{
    match integers(left, right) {
        Some((left, right)) => Ok(Ok(Term::int(left ^ right))),
        None => badarith(alloc),
    }
}

// `bnot`: each bit turned.
pub(crate) fn other_bits(alloc: Global, value: &Term) -> Result<Answer, AllocError>
    ensures { IfOk result (λ r. r ≡ of_integer spec.other_bits value.now) }
{
    match integer_of(value) {
        Some(value) => Ok(Ok(Term::int(!value))),
        None => badarith(alloc),
    }
}

// `bsl`: to the left by a count, or to the right if it is negative; `system_limit` if that is out of the range.
pub(crate) fn shift_left(alloc: Global, left: &Term, right: &Term) -> Result<Answer, AllocError>
    ensures { IfOk result (λ r. r ≡ of_integers spec.shift_left left.now right.now) }
{
    let Some((value, count)) = integers(left, right) else {
        return badarith(alloc);
    };
    if count < 0 {
        return Ok(down(value, count.unsigned_abs()));
    }
    up(alloc, value, count.unsigned_abs())
}

// `bsr`: to the right by a count, or to the left if it is negative; `system_limit` if that is out of the range.
pub(crate) fn shift_right(alloc: Global, left: &Term, right: &Term) -> Result<Answer, AllocError>
    ensures { IfOk result (λ r. r ≡ of_integers spec.shift_right left.now right.now) }
{
    let Some((value, count)) = integers(left, right) else {
        return badarith(alloc);
    };
    if count < 0 {
        return up(alloc, value, count.unsigned_abs());
    }
    Ok(down(value, count.unsigned_abs()))
}

// An integer moved to the left; `system_limit` if that is out of the range.
fn up(alloc: Global, value: i128, count: u128) -> Result<Answer, AllocError>
    ensures { IfOk result (λ r. r ≡ spec.up value count) }
{
    match scaled(value, count.min(128) as u32) {
        Some(product) => Ok(Ok(Term::int(product))),
        None => system_limit(alloc),
    }
}

// The product with 2^places, if it is in the range. 2^places alone need not be, so half of the places go first.
fn scaled(value: i128, places: u32) -> Option<i128>
    requires { places ≤ 128 }
    ensures { SomeIff result (FitsSigned w128 (value *ℤ pos (2 ^ places))) (value *ℤ pos (2 ^ places)) }
{
    let first = places / 2;
    let part = value.checked_mul(power(first))?;
    part.checked_mul(power(places - first))
}

// 2^places.
fn power(places: u32) -> i128
    requires { places ≤ 64 }
    ensures { result ≡ pos (2 ^ places) }
{
    1 << places
}

// An integer moved to the right. By 127 places it is 0 or -1, and by more it is the same.
fn down(value: i128, count: u128) -> Answer
    ensures { result ≡ spec.down value count }
{
    Ok(Term::int(value >> count.min(127) as u32))
}
