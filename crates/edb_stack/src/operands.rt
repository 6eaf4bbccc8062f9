//! Operands, of which one is being evaluated.

ghost use Rattle.std.specs.Prelude.{◌≡◌, ◌≤◌, ◌+◌, ◌-◌, ◌∷◌, [], ℕ, IfOk, is_some, length, map};
ghost use Rattle.std.specs.Option.{option_map};
ghost use Rattle.std.specs.Vec.{vec_len, vec_capacity};
ghost use Rattle.edb_syntax.specs.Syntax.{exps_of};
ghost use Rattle.edb_lang.specs.Pairs.{Pairs};
ghost use Rattle.edb_moves.specs.Running.{node, value, value_of, running, all_running};
ghost use Rattle.edb_stack.specs.Trees.{before, round};
ghost use Rattle.edb_stack.specs.Marks.{AllBelow};
ghost use Rattle.edb_stack.specs.Views.{item_of, doing_of};
ghost use Rattle.edb_stack.specs.Redexes.{value_in};
ghost use Rattle.edb_stack.specs.Feeding.{first_open, fed_tree, fed_code, FedBelow, operands_layer};

use crate::doing::Doing;
use crate::item::Item;
use edb_syntax::{Expr, ExprNode};
use std::alloc::{AllocError, Global};
use std::marker::Model;

/// Operands, of which one is being evaluated. Contracts see what is done with them, those before that one, which are
/// evaluated, and those behind it.
#[derive(Drop)]
pub struct Operands<'a> {
    doing: Doing<'a>,
    done: Vec<Item<'a>>,
    pending: &'a [Expr],
}

impl<'a> Model for Operands<'a> {
    ghost use Rattle.std.specs.Prelude.{List, ◌≤◌, ◌+◌, length};
    ghost use Rattle.std.specs.Vec.{vec_len, vec_capacity};
    ghost use Rattle.std.specs.Coded.{codes};
    ghost use Rattle.edb_lang.specs.TermCodes.{coded_datum};
    ghost use Rattle.edb_syntax.specs.Codes.{coded_exp};
    ghost use Rattle.edb_syntax.specs.ModuleCodes.{coded_module};
    ghost use Rattle.edb_syntax.specs.Syntax.{Exp};
    ghost use Rattle.edb_stack.specs.declared.doing.Doing.{Doing as Does};
    ghost use Rattle.edb_stack.specs.declared.item.Item.{Item as Done};

    ghost Value = { Does × List Done × List Exp };

    ghost coded = { Prim.hlevel (codes, coded_exp, coded_module, coded_datum) };

    ghost view = { λ o. (o.doing, o.done.items, o.pending.now) };

    // there is room for the one that is evaluated and for those behind it
    ghost invariant = { λ o. vec_len o.done + (length o.pending.now + 1) ≤ vec_capacity o.done };
}

/// What operands come to, once those are passed that are literals.
#[derive(Drop)]
pub enum Fed<'a> {
    /// All are evaluated.
    Full(Doing<'a>, Vec<Item<'a>>),
    /// This one is the next to be evaluated.
    Hole(Operands<'a>, &'a Expr),
}

impl<'a> Operands<'a> {
    /// Operands of which none is evaluated. `AllocError` only if out of memory.
    pub fn begin(
        alloc: Global,
        doing: Doing<'a>,
        operands: &'a [Expr],
    ) -> Result<Fed<'a>, AllocError>
        ensures tree { (bs : Pairs) → IfOk result (λ fed. fed_tree bs fed ≡ node (doing_of doing.entry) (all_running (exps_of operands.entry.now))) }
        ensures code { IfOk result (λ fed. fed_code fed ≡ first_open operands.entry.now) }
        ensures below { (n : ℕ) → IfOk result (λ fed. FedBelow n fed) }
    {
        let done = Vec::with_capacity(alloc, operands.len())?;
        Ok(advance(doing, done, operands))
    }

    /// The operand that is evaluated next, once the present one is a value; `None` if all behind it are literals.
    pub fn next(&self) -> Option<&'a Expr>
        ensures { option_map (λ e. e.now) result ≡ first_open self.now.2 }
    {
        let mut rest = self.pending;
        while let Some((operand, behind)) = rest.split_first() {
            if !is_literal(operand) {
                return Some(operand);
            }
            rest = behind;
        }
        None
    }

    /// The operand that was evaluated is this one; takes no memory.
    pub fn fill(self, item: Item<'a>) -> Fed<'a>
        ensures tree { (bs : Pairs) → fed_tree bs result ≡ round bs (operands_layer self.entry) (value (value_in bs item.entry)) }
        ensures code { fed_code result ≡ first_open self.entry.2 }
        ensures below { (n : ℕ) → AllBelow n (map item_of self.entry.1) → AllBelow n (item_of item.entry ∷ []) → FedBelow n result }
    {
        let mut done = self.done;
        done.push_reserved(item);
        advance(self.doing, done, self.pending)
    }
}

/// Whether an expression is a value as it is written.
pub fn is_literal(code: &Expr) -> bool
    ensures { result ≡ is_some (value_of (running code.now)) }
{
    match &code.node {
        ExprNode::Int(_) => true,
        ExprNode::Atom(_) => true,
        ExprNode::Float => true,
        _ => false,
    }
}

/// Operands behind those that are evaluated, up to the first that is no literal.
#[tactic(auto, using(crate::proofs::FeedLaws::before_last, crate::proofs::FeedLaws::below_last))]
fn advance<'a>(doing: Doing<'a>, done: Vec<Item<'a>>, pending: &'a [Expr]) -> Fed<'a>
    requires room { vec_len done + length pending.now ≤ vec_capacity done }
    ensures tree { (bs : Pairs) → fed_tree bs result ≡ node (doing_of doing.entry) (before bs (map item_of done.entry.items) (all_running (exps_of pending.entry.now))) }
    ensures code { fed_code result ≡ first_open pending.entry.now }
    ensures below { (n : ℕ) → AllBelow n (map item_of done.entry.items) → FedBelow n result }
{
    let mut done = done;
    let mut rest = pending;
    while let Some((operand, behind)) = rest.split_first() {
        if !is_literal(operand) {
            let operands = Operands {
                doing,
                done,
                pending: behind,
            };
            return Fed::Hole(operands, operand);
        }
        done.push_reserved(Item::Literal(operand));
        rest = behind;
    }
    Fed::Full(doing, done)
}
