//! One step on the way down to a redex.

ghost use Rattle.std.specs.Prelude.{◌≡◌, ◌+◌, ℕ, List, IfOk, IsTrue};
ghost use Rattle.edb_lang.specs.Pairs.{Pairs};
ghost use Rattle.edb_syntax.specs.Syntax.{exps_of, clauses_of};
ghost use Rattle.edb_syntax.specs.Sizes.{size, sizes};
ghost use Rattle.edb_moves.specs.Running.{leaf, arity_of, value_of, running, all_running, done_with};
ghost use Rattle.edb_stack.specs.Parts as parts;
ghost use Rattle.edb_stack.specs.Views.{leaf_of};
ghost use Rattle.edb_path.specs.Steps.{is_leaf, step_tree, StepBelow, StepStands, StepShrinks};
ghost use Rattle.edb_path.specs.Waiting.{MayStand};

use edb_lang::ActKind;
use edb_stack::{Doing, Fed, Item, Layer, Leaf, Operands, Redex};
use edb_syntax::{Clause, Expr, ExprNode, Operation};
use std::alloc::{AllocError, Global};

/// One step down into code.
#[derive(Drop)]
pub(crate) enum Step<'a> {
    /// The redex is here.
    Ends(Redex<'a>),
    /// The redex is in this part, and this layer stands round it.
    Goes(Layer<'a>, &'a Expr),
}

/// The step down into this code. `AllocError` only if out of memory, or as `parameters` has it.
pub(crate) fn step_down<'a>(alloc: Global, code: &'a Expr) -> Result<Step<'a>, AllocError>
    ensures tree { (bs : Pairs) → IfOk result (λ step. step_tree bs step ≡ running code.entry.now) }
    ensures below { (n : ℕ) → IfOk result (λ step. StepBelow n step) }
    ensures stands { (ls : List parts.Layer) → MayStand ls (value_of (running code.entry.now)) → IfOk result (λ step. StepStands ls step) }
    ensures shrinks { IfOk result (λ step. StepShrinks (size code.entry.now) step) }
{
    match &code.node {
        ExprNode::Int(_) => Ok(Step::Ends(Redex::Value(Item::Literal(code)))),
        ExprNode::Atom(_) => Ok(Step::Ends(Redex::Value(Item::Literal(code)))),
        ExprNode::Float => Ok(Step::Ends(Redex::Value(Item::Literal(code)))),
        ExprNode::Apply(operation, operands) => step_to_operand(alloc, operation, operands),
        ExprNode::AndAlso(left, right) => Ok(Step::Goes(Layer::AndThen(right), left)),
        ExprNode::OrElse(left, right) => Ok(Step::Goes(Layer::OrThen(right), left)),
        ExprNode::Match(pattern, value) => Ok(Step::Goes(Layer::Match(pattern), value)),
        ExprNode::Case(value, clauses) => Ok(Step::Goes(Layer::Select(clauses), value)),
        _ => Ok(Step::Ends(Redex::Leaf(leaf_at(code)?))),
    }
}

/// The step to the first operand that is no literal; where all are literals it ends, and what is to be done with them is
/// the redex. A send doesn't come yet. `AllocError` only if out of memory.
fn step_to_operand<'a>(
    alloc: Global,
    operation: &'a Operation,
    operands: &'a [Expr],
) -> Result<Step<'a>, AllocError>
    ensures tree { (bs : Pairs) → IfOk result (λ step. step_tree bs step ≡ done_with operation.entry.now (all_running (exps_of operands.entry.now))) }
    ensures below { (n : ℕ) → IfOk result (λ step. StepBelow n step) }
    ensures stands { (ls : List parts.Layer) → IfOk result (λ step. StepStands ls step) }
    ensures shrinks { IfOk result (λ step. StepShrinks (sizes (exps_of operands.entry.now) + 1) step) }
{
    let Some(doing) = Doing::of(operation) else {
        return Ok(Step::Ends(Redex::Leaf(Leaf::Missing(ActKind::Send))));
    };
    match Operands::begin(alloc, doing, operands)? {
        Fed::Full(doing, items) => Ok(Step::Ends(Redex::Apply(doing, items))),
        Fed::Hole(operands, operand) => Ok(Step::Goes(Layer::Operands(operands), operand)),
    }
}

/// Code of which no part is evaluated before it is the redex. `AllocError` only as `parameters` has it.
fn leaf_at<'a>(code: &'a Expr) -> Result<Leaf<'a>, AllocError>
    requires leaf { IsTrue (is_leaf code.now) }
    ensures { IfOk result (λ found. leaf (leaf_of found) ≡ running code.entry.now) }
{
    match &code.node {
        ExprNode::Str(points) => Ok(Leaf::Text(points)),
        ExprNode::Var(name) => Ok(Leaf::Variable(name)),
        ExprNode::Catch(value) => Ok(Leaf::Catching(value)),
        ExprNode::Begin(body) => Ok(Leaf::Unbegun(&body.first, &body.rest)),
        ExprNode::If(clauses) => Ok(Leaf::Conditions(clauses)),
        ExprNode::Receive(_) => Ok(Leaf::Missing(ActKind::Receive)),
        ExprNode::ReceiveAfter(..) => Ok(Leaf::Missing(ActKind::Receive)),
        ExprNode::Try(body, of, catches, after) => Ok(Leaf::Trying(body, of, catches, after)),
        ExprNode::Fun { index, clauses } => Ok(Leaf::Making(*index, parameters(clauses)?)),
        ExprNode::FunLocal { index, arity, .. } => Ok(Leaf::MakingLocal(*index, *arity)),
        ExprNode::FunRemote { home, name, arity } => Ok(Leaf::MakingRemote(home, name, *arity)),
        ExprNode::Comprehension(element, qualifiers) => Ok(Leaf::Comprehension(
            element, qualifiers,
        )),
        _ => unreachable!(),
    }
}

/// How many parameters a fun has. `AllocError` only where they are 2^32 or more.
fn parameters(clauses: &[Clause]) -> Result<u32, AllocError>
    ensures { IfOk result (λ count. count ≡ arity_of (clauses_of clauses.now)) }
{
    match clauses.first() {
        Some(clause) => match u32::try_from(clause.patterns.len()) {
            Ok(count) => Ok(count),
            Err(_) => Err(AllocError),
        },
        None => Ok(0),
    }
}
