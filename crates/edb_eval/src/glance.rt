//! What stands at the redex, seen without going there, which takes no memory.

ghost use Rattle.std.specs.Prelude.{◌≡◌, ◌+◌, ◌≤◌, ◌&&◌, List, None, Some, IsSome, IfSome, IfOk, MatchOption, codes};
ghost use Rattle.edb_lang.specs.Terms.{Datum};
ghost use Rattle.edb_lang.specs.TermText.{same_name};
ghost use Rattle.edb_model.specs.Running.{node, none, more, running, value, value_of, values_of};
ghost use Rattle.edb_eval.specs.Tree.{operation_of};
ghost use Rattle.edb_eval.specs.Glances.{leftmost, known_tree, known_nodes, cursor_runs, cursor_nodes, is_named, IsNotThree, Shows, Shown};

use crate::frames::{Operation, Pending};
use edb_lang::{ActKind, Expr, ExprNode, Name, Node, Term};
use std::alloc::{AllocError, Global};

/// What is next: an expression of a sequence is begun, at this module and line; another pure move; or a
/// shared act.
#[derive(Clone, Copy)]
pub enum Kind<'m> {
    Begin { module: &'m Name, line: u32 },
    Pure,
    Act(ActKind),
}

/// An operand: a value, or code that is not begun, which may be a literal.
#[derive(Clone, Copy)]
pub enum Known<'m> {
    Held(&'m Term),
    Code(&'m Expr),
}

/// What stands at the redex, where that isn't the begin of an expression: a display of this operand, or a
/// pure move.
#[derive(Clone, Copy)]
pub enum Glance<'m> {
    Pure,
    Display(Known<'m>),
}

/// Operands from one on: values, then one that is looked at by itself, then those that are not begun.
#[derive(Clone, Copy)]
pub struct Cursor<'m> {
    pub done: &'m [Term],
    pub current: Option<Known<'m>>,
    pub pending: Pending<'m>,
}

impl<'m> Cursor<'m> {
    // The first operand, and the others.
    fn split(self) -> Option<(Known<'m>, Cursor<'m>)>
        ensures cases { MatchOption result (cursor_runs self.entry ≡ none) (λ p. cursor_runs self.entry ≡ more (known_tree p.0) (cursor_runs p.1)) }
        ensures less { IfSome result (λ p. known_nodes p.0 + cursor_nodes p.1 ≤ cursor_nodes self.entry) }
    {
        if let Some((value, done)) = self.done.split_first() {
            let others = Cursor {
                done,
                current: self.current,
                pending: self.pending,
            };
            return Some((Known::Held(value), others));
        }
        if let Some(known) = self.current {
            let others = Cursor {
                done: self.done,
                current: None,
                pending: self.pending,
            };
            return Some((known, others));
        }
        match self.pending.split() {
            Some((code, pending)) => {
                let others = Cursor {
                    done: self.done,
                    current: None,
                    pending,
                };
                Some((Known::Code(code), others))
            }
            None => None,
        }
    }

    // The operands, where there are three.
    fn three(self) -> Option<(Known<'m>, Known<'m>, Known<'m>)>
        ensures { MatchOption result (IsNotThree (cursor_runs self.entry)) (λ k. cursor_runs self.entry ≡ more (known_tree k.0) (more (known_tree k.1) (more (known_tree k.2) none))) }
    {
        let (first, others) = self.split()?;
        let (second, others) = others.split()?;
        let (third, others) = others.split()?;
        match others.split() {
            None => Some((first, second, third)),
            Some(_) => None,
        }
    }
}

impl<'m> Known<'m> {
    // Whether this is the atom of these characters.
    fn is_named(self, name: &[u8]) -> bool
        ensures { result ≡ is_named (known_tree self.entry) name.now }
    {
        match self {
            Known::Held(term) => match &term.node {
                Node::Atom(atom) => atom.as_bytes() == name,
                _ => false,
            },
            Known::Code(code) => match &code.node {
                ExprNode::Atom(atom) => atom.as_bytes() == name,
                _ => false,
            },
        }
    }
}

impl<'m> Known<'m> {
    /// A copy of an operand that is a value; refused only for want of memory.
    pub fn copy(self, alloc: Global) -> Result<Term, AllocError>
        requires { IsSome (value_of (known_tree self)) }
        ensures { IfOk result (λ v. known_tree self.entry ≡ value v) }
    {
        match self {
            Known::Held(term) => term.copy(alloc),
            Known::Code(code) => match &code.node {
                ExprNode::Int(value) => Ok(Term::int(*value)),
                ExprNode::Atom(name) => Ok(Term::atom(name.copy(alloc)?)),
                _ => unreachable!(),
            },
        }
    }
}

/// What stands at the redex of code; None where the code is a literal.
#[cycle(glance)]
pub fn code_glance<'m>(code: &'m Expr) -> Option<Glance<'m>>
    ensures { MatchOption result (IsSome (value_of (running code.now))) (λ g. (value_of (running code.now) ≡ None) × Shows g (leftmost (running code.now))) }
{
    match &code.node {
        ExprNode::Int(_) => None,
        ExprNode::Atom(_) => None,
        ExprNode::Var(_) => Some(Glance::Pure),
        ExprNode::Match { value, .. } => match code_glance(value) {
            Some(glance) => Some(glance),
            None => Some(Glance::Pure),
        },
        ExprNode::Binary { op, left, right } => {
            let operands = Cursor {
                done: &[],
                current: Some(Known::Code(left)),
                pending: Pending {
                    first: Some(right),
                    rest: &[],
                },
            };
            Some(operands_glance(Operation::Operate(*op), operands))
        }
        ExprNode::Call { name, args } => {
            let operands = Cursor {
                done: &[],
                current: None,
                pending: Pending {
                    first: None,
                    rest: args,
                },
            };
            Some(operands_glance(Operation::Local(name), operands))
        }
        ExprNode::Remote { module, name, args } => {
            let operands = Cursor {
                done: &[],
                current: Some(Known::Code(module)),
                pending: Pending {
                    first: Some(name),
                    rest: args,
                },
            };
            Some(operands_glance(Operation::Remote, operands))
        }
    }
}

/// What stands at the redex of an operation on these operands.
#[cycle(glance)]
pub fn operands_glance<'m>(operation: Operation<'m>, operands: Cursor<'m>) -> Glance<'m>
    ensures { Shows result (leftmost (node (operation_of operation.entry) (cursor_runs operands.entry))) }
{
    let mut left = operands;
    while let Some((operand, others)) = left.split() {
        match known_glance(operand) {
            Some(glance) => return glance,
            None => left = others,
        }
    }
    match displayed(operation, operands) {
        Some(known) => Glance::Display(known),
        None => Glance::Pure,
    }
}

// What stands at the redex of an operand; None where it is a value.
#[cycle(glance)]
fn known_glance<'m>(operand: Known<'m>) -> Option<Glance<'m>>
    ensures { MatchOption result (IsSome (value_of (known_tree operand.entry))) (λ g. (value_of (known_tree operand.entry) ≡ None) × Shows g (leftmost (known_tree operand.entry))) }
{
    match operand {
        Known::Held(_) => None,
        Known::Code(code) => code_glance(code),
    }
}

// The operand of an operation that is a display of values.
fn displayed<'m>(operation: Operation<'m>, operands: Cursor<'m>) -> Option<Known<'m>>
    ensures { (vs : List Datum) → values_of (cursor_runs operands.entry) ≡ Some vs → Shown result (operation_of operation.entry) vs }
{
    match operation {
        Operation::Operate(_) => None,
        Operation::Local(_) => None,
        Operation::Remote => match operands.three() {
            None => None,
            Some((module, name, operand)) => {
                if !module.is_named(b"erlang") {
                    return None;
                }
                if !name.is_named(b"display") {
                    return None;
                }
                Some(operand)
            }
        },
    }
}

/// Whether a module and a name are those of `erlang:display`.
pub fn names_display(module: &Name, name: &Name) -> bool
    ensures { result ≡ (same_name «module».now (codes "erlang") && same_name name.now (codes "display")) }
{
    module.as_bytes() == b"erlang".as_slice() && name.as_bytes() == b"display".as_slice()
}
