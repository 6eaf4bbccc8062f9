//! The tests of what a term is. Each takes a time that doesn't depend on how large the term is.

ghost use Rattle.std.specs.Prelude.{◌≡◌, IfOk, Some};
ghost use Rattle.edb_lang.specs.Terms as spec;
ghost use Rattle.edb_lang.specs.TermViews.{fun_of};
ghost use Rattle.edb_pure.specs.Integers.{count_of};
ghost use Rattle.edb_pure.specs.Kinds as row;
ghost use Rattle.edb_pure.specs.Truths.{truth_of};

use crate::raises::{badarg, truth};
use edb_lang::{FunValue, Name, Node, Term};
use edb_pure::Raise;
use std::alloc::{AllocError, Global};

/// `is_atom/1`: whether the term is an atom. `AllocError` only if out of memory.
pub fn is_atom(alloc: Global, value: &Term) -> Result<Result<Term, Raise>, AllocError>
    ensures { IfOk result (λ r. r ≡ row.is_atom value.now) }
{
    match &value.node {
        Node::Atom(_) => truth(alloc, true),
        _ => truth(alloc, false),
    }
}

/// `is_boolean/1`: whether the term is the atom `true` or `false`. `AllocError` only if out of memory.
pub fn is_boolean(alloc: Global, value: &Term) -> Result<Result<Term, Raise>, AllocError>
    ensures { IfOk result (λ r. r ≡ row.is_boolean value.now) }
{
    truth(alloc, truth_value(value).is_some())
}

/// `is_integer/1`: whether the term is an integer. `AllocError` only if out of memory.
pub fn is_integer(alloc: Global, value: &Term) -> Result<Result<Term, Raise>, AllocError>
    ensures { IfOk result (λ r. r ≡ row.is_integer value.now) }
{
    match &value.node {
        Node::Int(_) => truth(alloc, true),
        _ => truth(alloc, false),
    }
}

/// `is_number/1`: whether the term is a number, which is an integer. `AllocError` only if out of memory.
pub fn is_number(alloc: Global, value: &Term) -> Result<Result<Term, Raise>, AllocError>
    ensures { IfOk result (λ r. r ≡ row.is_number value.now) }
{
    is_integer(alloc, value)
}

/// `is_list/1`: whether the term is the empty list or a list cell. `AllocError` only if out of memory.
pub fn is_list(alloc: Global, value: &Term) -> Result<Result<Term, Raise>, AllocError>
    ensures { IfOk result (λ r. r ≡ row.is_list value.now) }
{
    match &value.node {
        Node::Nil | Node::List(_) => truth(alloc, true),
        _ => truth(alloc, false),
    }
}

/// `is_tuple/1`: whether the term is a tuple. `AllocError` only if out of memory.
pub fn is_tuple(alloc: Global, value: &Term) -> Result<Result<Term, Raise>, AllocError>
    ensures { IfOk result (λ r. r ≡ row.is_tuple value.now) }
{
    match &value.node {
        Node::Tuple(_) => truth(alloc, true),
        _ => truth(alloc, false),
    }
}

/// `is_pid/1`: whether the term is a pid. `AllocError` only if out of memory.
pub fn is_pid(alloc: Global, value: &Term) -> Result<Result<Term, Raise>, AllocError>
    ensures { IfOk result (λ r. r ≡ row.is_pid value.now) }
{
    match &value.node {
        Node::Pid(_) => truth(alloc, true),
        _ => truth(alloc, false),
    }
}

/// `is_reference/1`: whether the term is a reference. `AllocError` only if out of memory.
pub fn is_reference(alloc: Global, value: &Term) -> Result<Result<Term, Raise>, AllocError>
    ensures { IfOk result (λ r. r ≡ row.is_reference value.now) }
{
    match &value.node {
        Node::Ref(_) => truth(alloc, true),
        _ => truth(alloc, false),
    }
}

/// `is_function/1`: whether the term is a fun. `AllocError` only if out of memory.
pub fn is_function(alloc: Global, value: &Term) -> Result<Result<Term, Raise>, AllocError>
    ensures { IfOk result (λ r. r ≡ row.is_function value.now) }
{
    truth(alloc, fun_arity(value).is_some())
}

/// `is_function/2`: whether the term is a fun that takes so many arguments. The error `badarg` if the second argument
/// is not an integer of at least 0; `AllocError` only if out of memory.
pub fn is_function_of(
    alloc: Global,
    value: &Term,
    arity: &Term,
) -> Result<Result<Term, Raise>, AllocError>
    ensures { IfOk result (λ r. r ≡ row.is_function_of value.now arity.now) }
{
    let Some(wanted) = count(arity) else {
        return badarg(alloc);
    };
    match fun_arity(value) {
        Some(taken) => truth(alloc, u128::from(taken) == wanted),
        None => truth(alloc, false),
    }
}

// The truth value that a term is.
fn truth_value(value: &Term) -> Option<bool>
    ensures { result ≡ truth_of value.now }
{
    match &value.node {
        Node::Atom(name) => named_truth(name),
        _ => None,
    }
}

// The truth value that a name is.
fn named_truth(name: &Name) -> Option<bool>
    ensures { result ≡ truth_of (spec.atom name.now) }
{
    match name.as_bytes() {
        b"true" => Some(true),
        b"false" => Some(false),
        _ => None,
    }
}

// How many arguments a fun takes.
fn fun_arity(value: &Term) -> Option<u32>
    ensures { result ≡ row.arity_of value.now }
{
    match &value.node {
        Node::Fun(fun) => Some(arity(fun)),
        _ => None,
    }
}

fn arity(fun: &FunValue) -> u32
    ensures { Some result ≡ row.arity_of (fun_of fun.now) }
{
    match fun {
        FunValue::Made { arity, .. } => *arity,
        FunValue::Named { arity, .. } => *arity,
    }
}

// The count that a term is.
fn count(value: &Term) -> Option<u128>
    ensures { result ≡ count_of value.now }
{
    match &value.node {
        Node::Int(number) => u128::try_from(*number).ok(),
        _ => None,
    }
}
