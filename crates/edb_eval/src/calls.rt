//! Calls: a function's parameters take the arguments.

ghost use Rattle.std.specs.Prelude.{◌≡◌, ◌≢◌, ◌+◌, ◌<◌, ◌^◌, ◌∷◌, [], true, IfOk, Ok};
ghost use Rattle.edb_model.specs.Lookup.{first_versions, version_beside};
ghost use Rattle.edb_model.specs.Move.{Place, outside, body_of, matched, all_matched, called};
ghost use Rattle.edb_eval.specs.Bodies.{version_or_first};
ghost use Rattle.edb_eval.specs.Calls.{Answers, called_effect, entry_body};

use crate::frames::Info;
use crate::reasons::failure;
use edb_lang::{Bindings, Expr, Function, Name, Pattern, PatternNode, Term};
use edb_model::Code;
use std::alloc::{AllocError, Global};

/// A function with its parameters bound.
#[derive(Drop)]
pub struct Entry<'a> {
    pub here: Info,
    pub first: &'a Expr,
    pub rest: &'a [Expr],
}

/// What a call comes to: a function is entered, or the call fails for this reason.
#[derive(Drop)]
pub enum Called<'a> {
    Enters(Entry<'a>),
    Fails(Term),
}

/// Where a call is made: the module that is called and its version, whether the call is made inside of
/// that module, and the level of the Body that makes it.
#[derive(Clone, Copy)]
pub struct Site<'m> {
    pub module: &'m Name,
    pub version: u32,
    pub inside: bool,
    pub level: u64,
}

/// The call of a function of a module; refused only for want of memory.
pub fn call<'a>(
    alloc: Global,
    code: &'a Code,
    site: Site<'_>,
    name: &Name,
    args: &[Term],
) -> Result<Called<'a>, AllocError>
    requires { site.level + 1 < 2 ^ 64 }
    ensures { IfOk result (λ a. (p : Place) → p.level ≡ site.entry.level → version_or_first (version_beside site.entry.«module».now p.bodies) ≡ site.entry.version
        → called_effect p a ≡ called code.now (first_versions code.now) p site.entry.inside site.entry.«module».now name.now args.now) }
{
    match code.function(site.module, site.version, site.inside, name, args.len()) {
        None => Ok(Called::Fails(failure(alloc, "undef")?)),
        Some(function) => {
            let mut bindings = Bindings::new(alloc);
            if match_all(alloc, &function.parameters, args, &mut bindings)? {
                Ok(Called::Enters(enter(alloc, site, function, bindings)?))
            } else {
                Ok(Called::Fails(failure(alloc, "function_clause")?))
            }
        }
    }
}

// The function with its parameters bound, one level above the call.
fn enter<'a>(
    alloc: Global,
    site: Site<'_>,
    function: &'a Function,
    bindings: Bindings,
) -> Result<Entry<'a>, AllocError>
    requires { site.level + 1 < 2 ^ 64 }
    ensures { IfOk result (λ e. entry_body e ≡ body_of (record outside { level = site.entry.level }) site.entry.«module».now site.entry.version function.now bindings) }
{
    let here = Info {
        home: site.module.copy(alloc)?,
        version: site.version,
        name: function.name.copy(alloc)?,
        arity: function.parameters.len(),
        level: site.level + 1,
        bindings,
    };
    Ok(Entry {
        here,
        first: &function.first,
        rest: &function.rest,
    })
}

/// Binds the variable of a pattern to a value, or compares the value that it has; whether they match.
pub fn match_value(
    alloc: Global,
    pattern: &Pattern,
    value: &Term,
    bindings: &mut Bindings,
) -> Result<bool, AllocError>
    ensures found { IfOk result (Answers (matched pattern.now value.now bindings.old) bindings.new) }
    ensures kept { result ≢ Ok true → bindings.new ≡ bindings.old }
{
    match &pattern.node {
        PatternNode::Var(name) => match bindings.get(name) {
            Some(bound) => Ok(bound.cmp(value).is_eq()),
            None => {
                let name = name.copy(alloc)?;
                let value = value.copy(alloc)?;
                bindings.bind(name, value)?;
                Ok(true)
            }
        },
    }
}

// Matches patterns and values one by one.
fn match_all(
    alloc: Global,
    patterns: &[Pattern],
    values: &[Term],
    bindings: &mut Bindings,
) -> Result<bool, AllocError>
    ensures { IfOk result (Answers (all_matched patterns.now values.now bindings.old) bindings.new) }
{
    let mut patterns_left = patterns;
    let mut values_left = values;
    loop {
        match (patterns_left.split_first(), values_left.split_first()) {
            (None, None) => return Ok(true),
            (Some((pattern, patterns)), Some((value, values))) => {
                if !match_value(alloc, pattern, value, bindings)? {
                    return Ok(false);
                }
                patterns_left = patterns;
                values_left = values;
            }
            _ => return Ok(false),
        }
    }
}
