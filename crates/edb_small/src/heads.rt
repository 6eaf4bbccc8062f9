//! The attributes of a module, and the whole module.

ghost use Rattle.std.specs.Prelude.{◌≡◌, ◌<◌, ◌≤◌, IfOk, IfSome, length, [], ◌∷◌};
ghost use Rattle.edb_scan.specs.declared.lexeme.Mark.TheVariants as mark;
ghost use Rattle.edb_small.specs.Descent as descent;
ghost use Rattle.edb_small.specs.Descent.{Finds};

use crate::functions::functions;
use crate::tokens::{arity, atom, behind, behind_dot, behind_word};
use edb_lang::{FunctionName, Module, Name};
use edb_scan::{Mark, Placed};
use std::alloc::{AllocError, Global};

/// An exported function's name and arity.
#[tactic(auto, unfolding(crate::specs::Descent::export_at))]
fn export(alloc: Global, tokens: &[Placed]) -> Result<Option<(FunctionName, &[Placed])>, AllocError>
    ensures finds { IfOk result (λ r. Finds (λ x. (x.0, x.1.now)) r (descent.export_at tokens.now)) }
    ensures shorter { IfOk result (λ r. IfSome r (λ x. length x.1.now < length tokens.now)) }
{
    let Some((_, name, slash)) = atom(tokens) else {
        return Ok(None);
    };
    let Some(number) = behind(Mark::Slash, slash) else {
        return Ok(None);
    };
    match arity(number) {
        Some((arity, rest)) => {
            let name = name.copy(alloc)?;
            Ok(Some((FunctionName { name, arity }, rest)))
        }
        None => Ok(None),
    }
}

/// An export and those behind it.
fn other_exports(
    alloc: Global,
    first: FunctionName,
    tokens: &[Placed],
) -> Result<Option<(Vec<FunctionName>, &[Placed])>, AllocError>
    ensures finds { IfOk result (λ r. Finds (λ x. (x.0.items, x.1.now)) r (descent.others descent.export_at (first ∷ []) tokens.now)) }
    ensures shorter { IfOk result (λ r. IfSome r (λ x. length x.1.now ≤ length tokens.now)) }
{
    let mut exports = Vec::new(alloc);
    exports.push(first)?;
    let mut rest = tokens;
    while let Some(after) = behind(Mark::Comma, rest) {
        let Some((next, end)) = export(alloc, after)? else {
            return Ok(None);
        };
        exports.push(next)?;
        rest = end;
    }
    Ok(Some((exports, rest)))
}

/// One export or more, and what stands behind the closing bracket.
#[tactic(auto, unfolding(crate::specs::Descent::some_closed))]
fn some_exports(
    alloc: Global,
    tokens: &[Placed],
) -> Result<Option<(Vec<FunctionName>, &[Placed])>, AllocError>
    ensures finds { IfOk result (λ r. Finds (λ x. (x.0.items, x.1.now)) r (descent.some_closed descent.export_at mark.BracketClose tokens.now)) }
    ensures shorter { IfOk result (λ r. IfSome r (λ x. length x.1.now < length tokens.now)) }
{
    let Some((first, after)) = export(alloc, tokens)? else {
        return Ok(None);
    };
    let Some((exports, end)) = other_exports(alloc, first, after)? else {
        return Ok(None);
    };
    match behind(Mark::BracketClose, end) {
        Some(rest) => Ok(Some((exports, rest))),
        None => Ok(None),
    }
}

/// What stands behind `-`, this word and `(`.
#[tactic(auto, unfolding(crate::specs::Descent::attribute_at))]
fn attribute<'a>(word: &[u8], tokens: &'a [Placed]) -> Option<&'a [Placed]>
    ensures finds { Finds (λ rest. rest.now) result (descent.attribute_at word.now tokens.now) }
    ensures shorter { IfSome result (λ rest. length rest.now < length tokens.now) }
{
    let name = behind(Mark::Minus, tokens)?;
    let paren = behind_word(word, name)?;
    behind(Mark::ParenOpen, paren)
}

/// What stands behind `)` and a dot.
#[tactic(auto, unfolding(crate::specs::Descent::attribute_end))]
fn attribute_end(tokens: &[Placed]) -> Option<&[Placed]>
    ensures finds { Finds (λ rest. rest.now) result (descent.attribute_end tokens.now) }
    ensures shorter { IfSome result (λ rest. length rest.now < length tokens.now) }
{
    let end = behind(Mark::ParenClose, tokens)?;
    behind_dot(end)
}

/// The module's name.
#[tactic(auto, unfolding(crate::specs::Descent::module_name_at))]
fn module_name(tokens: &[Placed]) -> Option<(&Name, &[Placed])>
    ensures { Finds (λ x. (x.0.now, x.1.now)) result (descent.module_name_at tokens.now) }
{
    let inner = attribute(b"module", tokens)?;
    let (_, name, end) = atom(inner)?;
    let rest = attribute_end(end)?;
    Some((name, rest))
}

/// The functions that the module exports.
#[tactic(auto, unfolding(crate::specs::Descent::exports_at))]
fn exports(
    alloc: Global,
    tokens: &[Placed],
) -> Result<Option<(Vec<FunctionName>, &[Placed])>, AllocError>
    ensures { IfOk result (λ r. Finds (λ x. (x.0.items, x.1.now)) r (descent.exports_at tokens.now)) }
{
    let Some(inner) = attribute(b"export", tokens) else {
        return Ok(None);
    };
    let Some(names) = behind(Mark::BracketOpen, inner) else {
        return Ok(None);
    };
    let Some((exports, end)) = some_exports(alloc, names)? else {
        return Ok(None);
    };
    match attribute_end(end) {
        Some(rest) => Ok(Some((exports, rest))),
        None => Ok(None),
    }
}

/// The module that the tokens write.
#[tactic(auto, unfolding(crate::specs::Descent::module_at))]
pub fn module_of(alloc: Global, tokens: &[Placed]) -> Result<Option<Module>, AllocError>
    ensures { IfOk result (λ r. Finds (λ m. m) r (descent.module_at tokens.now)) }
{
    let Some((name, attributes)) = module_name(tokens) else {
        return Ok(None);
    };
    let Some((exports, forms)) = exports(alloc, attributes)? else {
        return Ok(None);
    };
    match functions(alloc, forms)? {
        Some(functions) => {
            let name = name.copy(alloc)?;
            Ok(Some(Module {
                name,
                exports,
                functions,
            }))
        }
        None => Ok(None),
    }
}
