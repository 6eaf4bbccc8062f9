//! The conditions on a module that was read.

ghost use Rattle.std.specs.Prelude.{◌≡◌, true, false, IfOk, MatchOption};
ghost use Rattle.std.specs.List.{list_all};
ghost use Rattle.edb_lang.specs.Syntax.{exps_of, more};
ghost use Rattle.edb_small.specs.Checks as checks;
ghost use Rattle.edb_small.specs.Conditions as conditions;

use crate::scope::Scope;
use crate::walks::{all_calls_known, are_within, calls_known, has_function, is_closed, is_within};
use edb_lang::{Expr, ExprNode, Function, Module, Name, Pattern, PatternNode};
use std::alloc::{AllocError, Global};

/// How deep an expression may be.
const DEEPEST: u32 = 200;

/// The name that a pattern binds.
fn name_of(pattern: &Pattern) -> &Name
    ensures { result.now ≡ conditions.name_of pattern.now }
{
    let PatternNode::Var(name) = &pattern.node;
    name
}

/// The scope of a function's parameters, where no two have one name.
fn parameter_scope(alloc: Global, parameters: &[Pattern]) -> Result<Option<Scope>, AllocError>
    ensures { IfOk result (λ r. MatchOption r (conditions.differ (conditions.names_of parameters.now) ≡ false)
        (λ s. (conditions.differ (conditions.names_of parameters.now) ≡ true) × (s ≡ conditions.names_of parameters.now))) }
{
    let mut scope = Scope::new(alloc);
    let mut rest = parameters;
    while let Some((last, front)) = rest.split_last() {
        let name = name_of(last);
        if scope.has(name) {
            return Ok(None);
        }
        scope.bind(name)?;
        rest = front;
    }
    Ok(Some(scope))
}

/// Whether a line uses bound variables alone and binds one that isn't bound yet, which is bound from then on.
fn takes_line<'a>(scope: &mut Scope<'a>, line: &'a Expr) -> Result<bool, AllocError>
    ensures test { IfOk result (λ ok. ok ≡ conditions.is_scoped scope.old line.now) }
    ensures bound { IfOk result (λ ok. ok ≡ true → scope.new ≡ conditions.bound_by scope.old line.now) }
{
    match &line.node {
        ExprNode::Match { pattern, value } => {
            let name = name_of(pattern);
            if scope.has(name) || !is_closed(scope, value) {
                return Ok(false);
            }
            scope.bind(name)?;
            Ok(true)
        }
        _ => Ok(is_closed(scope, line)),
    }
}

/// Whether each line uses bound variables alone and binds one that isn't bound yet.
fn are_scoped<'a>(
    mut scope: Scope<'a>,
    first: &'a Expr,
    rest: &'a [Expr],
) -> Result<bool, AllocError>
    ensures { IfOk result (λ ok. ok ≡ conditions.are_scoped scope.entry (more first.now (exps_of rest.now))) }
{
    if !takes_line(&mut scope, first)? {
        return Ok(false);
    }
    for line in rest {
        if !takes_line(&mut scope, line)? {
            return Ok(false);
        }
    }
    Ok(true)
}

/// Whether a function's variables are bound and used rightly, its calls are of these functions, and it
/// isn't too deep.
#[tactic(auto, unfolding(crate::specs::Checks::function_passes))]
fn function_passes(
    alloc: Global,
    functions: &[Function],
    function: &Function,
) -> Result<bool, AllocError>
    ensures { IfOk result (λ ok. ok ≡ checks.function_passes functions.now function.now) }
{
    let Some(scope) = parameter_scope(alloc, &function.parameters)? else {
        return Ok(false);
    };
    if !are_scoped(scope, &function.first, &function.rest)? {
        return Ok(false);
    }
    if !calls_known(functions, &function.first) || !all_calls_known(functions, &function.rest) {
        return Ok(false);
    }
    Ok(is_within(&function.first, DEEPEST) && are_within(&function.rest, DEEPEST))
}

/// Whether each of these functions passes.
#[tactic(auto, unfolding(crate::specs::Checks::functions_pass))]
fn functions_pass(
    alloc: Global,
    all: &[Function],
    functions: &[Function],
) -> Result<bool, AllocError>
    ensures { IfOk result (λ ok. ok ≡ checks.functions_pass all.now functions.now) }
{
    for function in functions {
        if !function_passes(alloc, all, function)? {
            return Ok(false);
        }
    }
    Ok(true)
}

/// Whether no function is defined twice.
fn defined_once(functions: &[Function]) -> bool
    ensures { result ≡ conditions.defined_once functions.now }
{
    let mut rest = functions;
    while let Some((function, others)) = rest.split_first() {
        if has_function(others, &function.name, function.parameters.len()) {
            return false;
        }
        rest = others;
    }
    true
}

/// Whether each export is defined.
#[tactic(auto, unfolding(crate::specs::Checks::exports_pass))]
fn exports_pass(module: &Module) -> bool
    ensures { result ≡ checks.exports_pass «module».now }
{
    for export in &module.exports {
        if !has_function(&module.functions, &export.name, export.arity as usize) {
            return false;
        }
    }
    true
}

/// Whether a module's name is taken.
fn is_taken(name: &Name) -> bool
    ensures { result ≡ conditions.is_among name.now conditions.taken_names }
{
    let name = name.as_bytes();
    name == b"erlang".as_slice()
        || name == b"lists".as_slice()
        || name == b"io".as_slice()
        || name == b"int".as_slice()
}

/// Whether a module's name isn't taken, its exports are defined, and its functions pass.
#[tactic(auto, unfolding(crate::specs::Checks::module_passes))]
pub fn module_passes(alloc: Global, module: &Module) -> Result<bool, AllocError>
    ensures { IfOk result (λ ok. ok ≡ checks.module_passes «module».now) }
{
    if is_taken(&module.name) {
        return Ok(false);
    }
    if !exports_pass(module) {
        return Ok(false);
    }
    if !defined_once(&module.functions) {
        return Ok(false);
    }
    functions_pass(alloc, &module.functions, &module.functions)
}
