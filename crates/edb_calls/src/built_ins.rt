//! Built-ins that are no shared acts: those that only compute, and `apply`.

ghost use Rattle.std.specs.Prelude.{◌≡◌, false, ℕ, IfOk, MatchOption, length, map};
ghost use Rattle.edb_lang.specs.Terms.{Datum};
ghost use Rattle.edb_moves.specs.Calls.{applied_fun, applied_name, built_in as built_in_move, is_unshared};
ghost use Rattle.edb_moves.specs.Going.{Place};
ghost use Rattle.edb_path.specs.Plans.{effect, Suits};
ghost use Rattle.edb_table.specs.Marking.{is_auto};
ghost use Rattle.edb_calls.specs.Listed.{key_of, IsListed};
ghost use Rattle.edb_calls.specs.Alone.{IsAlone};

use crate::becomes::becomes;
use crate::raises::{answered, fails};
use edb_lang::Term;
use edb_ops::{call_refs, is_pure};
use edb_path::Plan;
use edb_stack::Doing;
use edb_table::{find_built_in, marks};
use std::alloc::{AllocError, Global};

/// A built-in that is no shared act.
#[derive(Clone, Copy)]
pub(crate) enum BuiltIn {
    /// `apply(F, Args)`
    ApplyFun,
    /// `apply(M, F, Args)`
    ApplyName,
    /// One that only computes, by its index in the table.
    Computes(usize),
}

impl BuiltIn {
    /// The built-in of this module and name with so many arguments; `None` if there is none that is no shared act.
    pub(crate) fn find(home: &str, name: &str, arity: usize) -> Option<BuiltIn>
        ensures found { MatchOption result (is_unshared (home.now, (name.now, arity)) ≡ false) (λ b. key_of b ≡ (home.now, (name.now, arity))) }
        ensures listed { MatchOption result (Unit {0}) IsListed }
    {
        let Ok(arity) = u8::try_from(arity) else {
            return None;
        };
        let Some(index) = find_built_in(home, name, arity) else {
            return None;
        };
        if index == 2 {
            return Some(BuiltIn::ApplyFun);
        }
        if index == 3 {
            return Some(BuiltIn::ApplyName);
        }
        if is_pure(index) {
            return Some(BuiltIn::Computes(index));
        }
        None
    }

    /// Whether a call needs no module.
    pub(crate) fn is_auto(self) -> bool
        requires { IsListed self }
        ensures { result ≡ is_auto (key_of self) }
    {
        match self {
            BuiltIn::ApplyFun => true,
            BuiltIn::ApplyName => true,
            BuiltIn::Computes(index) => marks(index).auto,
        }
    }

    /// What its call does, with as many arguments as it takes. `AllocError` only if out of memory, here and in all that
    /// follows.
    pub(crate) fn plan<'a>(
        self,
        alloc: Global,
        args: &[&Term],
        me: u32,
    ) -> Result<Plan<'a>, AllocError>
        requires listed { IsListed self }
        requires arity { (key_of self).1.1 ≡ length args.now }
        ensures effect { (p : Place) (v : Datum) → p.me ≡ me → IfOk result (λ plan. effect p v plan ≡ built_in_move p (key_of self) (map (λ t. t.now) args.now)) }
        ensures suits { (n : ℕ) → IfOk result (Suits n) }
        ensures alone { IfOk result IsAlone }
    {
        match self {
            BuiltIn::ApplyFun => apply_fun(alloc, args[0], args[1]),
            BuiltIn::ApplyName => apply_name(alloc, args[0], args[1], args[2]),
            BuiltIn::Computes(index) => Ok(answered(call_refs(alloc, index, args, me)?)),
        }
    }
}

/// `apply(F, Args)` becomes the call of the fun.
fn apply_fun<'a>(alloc: Global, fun: &Term, list: &Term) -> Result<Plan<'a>, AllocError>
    ensures effect { (p : Place) (v : Datum) → IfOk result (λ plan. effect p v plan ≡ applied_fun p fun.now list.now) }
    ensures suits { (n : ℕ) → IfOk result (Suits n) }
    ensures alone { IfOk result IsAlone }
{
    match list.elements(alloc)? {
        Some(args) => becomes(alloc, Doing::FunCall, &[fun], &args),
        None => fails(alloc, "badarg"),
    }
}

/// `apply(M, F, Args)` becomes the call with a module.
fn apply_name<'a>(
    alloc: Global,
    home: &Term,
    name: &Term,
    list: &Term,
) -> Result<Plan<'a>, AllocError>
    ensures effect { (p : Place) (v : Datum) → IfOk result (λ plan. effect p v plan ≡ applied_name p home.now name.now list.now) }
    ensures suits { (n : ℕ) → IfOk result (Suits n) }
    ensures alone { IfOk result IsAlone }
{
    match list.elements(alloc)? {
        Some(args) => becomes(alloc, Doing::RemoteCall, &[home, name], &args),
        None => fails(alloc, "badarg"),
    }
}
