//! Functions, with their parameters and lines.

ghost use Rattle.std.specs.Prelude.{◌≡◌, ◌<◌, ◌≤◌, IfOk, IfSome, length, [], ◌∷◌};
ghost use Rattle.edb_lang.specs.Syntax as syntax;
ghost use Rattle.edb_scan.specs.declared.lexeme.Mark.TheVariants as mark;
ghost use Rattle.edb_small.specs.Descent as descent;
ghost use Rattle.edb_small.specs.Descent.{Finds};

use crate::sums::sum;
use crate::tokens::{atom, behind, behind_dot, variable};
use edb_lang::{Expr, ExprNode, Function, Name, Pattern, PatternNode};
use edb_scan::{Mark, Placed};
use std::alloc::{AllocError, Global};

/// How many levels of calls a sum may have.
const LEVELS: u32 = 200;

/// The variable left of `=`, and what stands behind the mark.
#[tactic(auto, unfolding(crate::specs::Descent::target_at))]
fn target(tokens: &[Placed]) -> Option<(u32, &Name, &[Placed])>
    ensures finds { Finds (λ x. ((x.0, x.1.now), x.2.now)) result (descent.target_at tokens.now) }
    ensures shorter { IfSome result (λ x. length x.2.now < length tokens.now) }
{
    let (line, name, rest) = variable(tokens)?;
    let value = behind(Mark::Match, rest)?;
    Some((line, name, value))
}

/// A variable as a pattern; refused only for want of memory.
fn pattern_of(alloc: Global, line: u32, name: &Name) -> Result<Pattern, AllocError>
    ensures { IfOk result (λ p. p ≡ syntax.Pat.variable line name.now) }
{
    let node = PatternNode::Var(name.copy(alloc)?);
    Ok(Pattern { node, line })
}

/// A line of a function: a sum, or a variable that is bound to one.
#[tactic(auto, unfolding(crate::specs::Descent::line_at))]
fn line(alloc: Global, tokens: &[Placed]) -> Result<Option<(Expr, &[Placed])>, AllocError>
    ensures finds { IfOk result (λ r. Finds (λ x. (x.0, x.1.now)) r (descent.line_at tokens.now)) }
    ensures shorter { IfOk result (λ r. IfSome r (λ x. length x.1.now < length tokens.now)) }
{
    let Some((line, name, after)) = target(tokens) else {
        return sum(alloc, LEVELS, tokens);
    };
    match sum(alloc, LEVELS, after)? {
        Some((value, rest)) => {
            let pattern = pattern_of(alloc, line, name)?;
            let value = Box::new(alloc, value)?;
            let node = ExprNode::Match { pattern, value };
            Ok(Some((Expr { node, line }, rest)))
        }
        None => Ok(None),
    }
}

/// The lines behind the first one.
fn other_lines(
    alloc: Global,
    tokens: &[Placed],
) -> Result<Option<(Vec<Expr>, &[Placed])>, AllocError>
    ensures finds { IfOk result (λ r. Finds (λ x. (x.0.items, x.1.now)) r (descent.others descent.line_at [] tokens.now)) }
    ensures shorter { IfOk result (λ r. IfSome r (λ x. length x.1.now ≤ length tokens.now)) }
{
    let mut lines = Vec::new(alloc);
    let mut rest = tokens;
    while let Some(after) = behind(Mark::Comma, rest) {
        let Some((next, end)) = line(alloc, after)? else {
            return Ok(None);
        };
        lines.push(next)?;
        rest = end;
    }
    Ok(Some((lines, rest)))
}

/// The lines of a function, up to its dot.
#[tactic(auto, unfolding(crate::specs::Descent::body_at))]
fn body(
    alloc: Global,
    tokens: &[Placed],
) -> Result<Option<(Expr, Vec<Expr>, &[Placed])>, AllocError>
    ensures finds { IfOk result (λ r. Finds (λ x. ((x.0, x.1.items), x.2.now)) r (descent.body_at tokens.now)) }
    ensures shorter { IfOk result (λ r. IfSome r (λ x. length x.2.now < length tokens.now)) }
{
    let Some((first, after)) = line(alloc, tokens)? else {
        return Ok(None);
    };
    let Some((lines, end)) = other_lines(alloc, after)? else {
        return Ok(None);
    };
    match behind_dot(end) {
        Some(rest) => Ok(Some((first, lines, rest))),
        None => Ok(None),
    }
}

/// A parameter.
#[tactic(auto, unfolding(crate::specs::Descent::parameter_at))]
fn parameter(alloc: Global, tokens: &[Placed]) -> Result<Option<(Pattern, &[Placed])>, AllocError>
    ensures finds { IfOk result (λ r. Finds (λ x. (x.0, x.1.now)) r (descent.parameter_at tokens.now)) }
    ensures shorter { IfOk result (λ r. IfSome r (λ x. length x.1.now < length tokens.now)) }
{
    match variable(tokens) {
        Some((line, name, rest)) => Ok(Some((pattern_of(alloc, line, name)?, rest))),
        None => Ok(None),
    }
}

/// A parameter and those behind it.
fn other_parameters(
    alloc: Global,
    first: Pattern,
    tokens: &[Placed],
) -> Result<Option<(Vec<Pattern>, &[Placed])>, AllocError>
    ensures finds { IfOk result (λ r. Finds (λ x. (x.0.items, x.1.now)) r (descent.others descent.parameter_at (first ∷ []) tokens.now)) }
    ensures shorter { IfOk result (λ r. IfSome r (λ x. length x.1.now ≤ length tokens.now)) }
{
    let mut parameters = Vec::new(alloc);
    parameters.push(first)?;
    let mut rest = tokens;
    while let Some(after) = behind(Mark::Comma, rest) {
        let Some((next, end)) = parameter(alloc, after)? else {
            return Ok(None);
        };
        parameters.push(next)?;
        rest = end;
    }
    Ok(Some((parameters, rest)))
}

/// One parameter or more, and what stands behind the closing parenthesis.
#[tactic(auto, unfolding(crate::specs::Descent::some_closed))]
fn some_parameters(
    alloc: Global,
    tokens: &[Placed],
) -> Result<Option<(Vec<Pattern>, &[Placed])>, AllocError>
    ensures finds { IfOk result (λ r. Finds (λ x. (x.0.items, x.1.now)) r (descent.some_closed descent.parameter_at mark.ParenClose tokens.now)) }
    ensures shorter { IfOk result (λ r. IfSome r (λ x. length x.1.now < length tokens.now)) }
{
    let Some((first, after)) = parameter(alloc, tokens)? else {
        return Ok(None);
    };
    let Some((parameters, end)) = other_parameters(alloc, first, after)? else {
        return Ok(None);
    };
    match behind(Mark::ParenClose, end) {
        Some(rest) => Ok(Some((parameters, rest))),
        None => Ok(None),
    }
}

/// The parameters of a function, and what stands behind the closing parenthesis.
#[tactic(auto, unfolding(crate::specs::Descent::closed))]
fn parameters(
    alloc: Global,
    tokens: &[Placed],
) -> Result<Option<(Vec<Pattern>, &[Placed])>, AllocError>
    ensures finds { IfOk result (λ r. Finds (λ x. (x.0.items, x.1.now)) r (descent.closed descent.parameter_at mark.ParenClose tokens.now)) }
    ensures shorter { IfOk result (λ r. IfSome r (λ x. length x.1.now < length tokens.now)) }
{
    match behind(Mark::ParenClose, tokens) {
        Some(rest) => Ok(Some((Vec::new(alloc), rest))),
        None => some_parameters(alloc, tokens),
    }
}

/// A function's name and parameters, up to its arrow.
#[tactic(auto, unfolding(crate::specs::Descent::head_at))]
fn head(
    alloc: Global,
    tokens: &[Placed],
) -> Result<Option<(&Name, Vec<Pattern>, &[Placed])>, AllocError>
    ensures finds { IfOk result (λ r. Finds (λ x. ((x.0.now, x.1.items), x.2.now)) r (descent.head_at tokens.now)) }
    ensures shorter { IfOk result (λ r. IfSome r (λ x. length x.2.now < length tokens.now)) }
{
    let Some((_, name, paren)) = atom(tokens) else {
        return Ok(None);
    };
    let Some(inner) = behind(Mark::ParenOpen, paren) else {
        return Ok(None);
    };
    let Some((parameters, end)) = parameters(alloc, inner)? else {
        return Ok(None);
    };
    match behind(Mark::Arrow, end) {
        Some(rest) => Ok(Some((name, parameters, rest))),
        None => Ok(None),
    }
}

/// A function.
#[tactic(auto, unfolding(crate::specs::Descent::function_at))]
fn function(alloc: Global, tokens: &[Placed]) -> Result<Option<(Function, &[Placed])>, AllocError>
    ensures finds { IfOk result (λ r. Finds (λ x. (x.0, x.1.now)) r (descent.function_at tokens.now)) }
    ensures shorter { IfOk result (λ r. IfSome r (λ x. length x.1.now < length tokens.now)) }
{
    let Some((name, parameters, lines)) = head(alloc, tokens)? else {
        return Ok(None);
    };
    match body(alloc, lines)? {
        Some((first, others, end)) => {
            let name = name.copy(alloc)?;
            Ok(Some((
                Function {
                    name,
                    parameters,
                    first,
                    rest: others,
                },
                end,
            )))
        }
        None => Ok(None),
    }
}

/// The functions, up to the end of the tokens.
pub fn functions(alloc: Global, tokens: &[Placed]) -> Result<Option<Vec<Function>>, AllocError>
    ensures { IfOk result (λ r. Finds (λ fs. (fs.items, [])) r (descent.functions_at tokens.now)) }
{
    let mut functions = Vec::new(alloc);
    let mut rest = tokens;
    while !rest.is_empty() {
        let Some((next, end)) = function(alloc, rest)? else {
            return Ok(None);
        };
        functions.push(next)?;
        rest = end;
    }
    Ok(Some(functions))
}
