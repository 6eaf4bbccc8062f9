//! Operators between operands.

ghost use Rattle.std.specs.Prelude.{◌≡◌, IfOk, IfSome, MatchOption, Some, true};
ghost use Rattle.std.specs.Option.{option_map};
ghost use Rattle.edb_grammar.specs.Operators as operators;
ghost use Rattle.edb_grammar.specs.ExpressionReading.{infix_at, takes, tail};
ghost use Rattle.edb_parse.specs.Cursors.{toks, Fits, Moves};
ghost use Rattle.edb_parse.specs.Operating.{infix_from, left_at, right_at, Stops};

use crate::boxes::{boxed, two};
use crate::cursor::Cursor;
use edb_lang::BinaryOp;
use edb_scan::{Mark, Token};
use edb_syntax::{Expr, ExprNode, Operation};
use std::alloc::{AllocError, Global};

/// An operator between two operands, `=` apart.
#[derive(Clone, Copy)]
pub enum Operator {
    /// One that evaluates both.
    Strict(BinaryOp),
    /// `andalso`
    AndAlso,
    /// `orelse`
    OrElse,
    /// `!`
    Send,
}

/// The operator that this mark writes, where it writes one.
fn operator_of(mark: Mark) -> Option<Operator>
    ensures { option_map infix_from result ≡ operators.infix_of mark }
{
    match mark {
        Mark::Slash => Some(Operator::Strict(BinaryOp::Divide)),
        Mark::Star => Some(Operator::Strict(BinaryOp::Multiply)),
        Mark::Div => Some(Operator::Strict(BinaryOp::Div)),
        Mark::Rem => Some(Operator::Strict(BinaryOp::Rem)),
        Mark::BitAnd => Some(Operator::Strict(BinaryOp::BitAnd)),
        Mark::And => Some(Operator::Strict(BinaryOp::And)),
        Mark::Plus => Some(Operator::Strict(BinaryOp::Add)),
        Mark::Minus => Some(Operator::Strict(BinaryOp::Subtract)),
        Mark::BitOr => Some(Operator::Strict(BinaryOp::BitOr)),
        Mark::BitXor => Some(Operator::Strict(BinaryOp::BitXor)),
        Mark::ShiftLeft => Some(Operator::Strict(BinaryOp::ShiftLeft)),
        Mark::ShiftRight => Some(Operator::Strict(BinaryOp::ShiftRight)),
        Mark::Or => Some(Operator::Strict(BinaryOp::Or)),
        Mark::Xor => Some(Operator::Strict(BinaryOp::Xor)),
        Mark::PlusPlus => Some(Operator::Strict(BinaryOp::Append)),
        Mark::MinusMinus => Some(Operator::Strict(BinaryOp::Remove)),
        Mark::Equal => Some(Operator::Strict(BinaryOp::Equal)),
        Mark::Unequal => Some(Operator::Strict(BinaryOp::Unequal)),
        Mark::AtMost => Some(Operator::Strict(BinaryOp::AtMost)),
        Mark::LessThan => Some(Operator::Strict(BinaryOp::LessThan)),
        Mark::AtLeast => Some(Operator::Strict(BinaryOp::AtLeast)),
        Mark::GreaterThan => Some(Operator::Strict(BinaryOp::GreaterThan)),
        Mark::ExactlyEqual => Some(Operator::Strict(BinaryOp::ExactlyEqual)),
        Mark::ExactlyUnequal => Some(Operator::Strict(BinaryOp::ExactlyUnequal)),
        Mark::AndAlso => Some(Operator::AndAlso),
        Mark::OrElse => Some(Operator::OrElse),
        Mark::Bang => Some(Operator::Send),
        _ => None,
    }
}

/// How loose an operator is that evaluates both operands.
fn strict_level(op: BinaryOp) -> u32
    ensures { result ≡ operators.strict_level op }
{
    match op {
        BinaryOp::Divide => 3,
        BinaryOp::Multiply => 3,
        BinaryOp::Div => 3,
        BinaryOp::Rem => 3,
        BinaryOp::BitAnd => 3,
        BinaryOp::And => 3,
        BinaryOp::Add => 4,
        BinaryOp::Subtract => 4,
        BinaryOp::BitOr => 4,
        BinaryOp::BitXor => 4,
        BinaryOp::ShiftLeft => 4,
        BinaryOp::ShiftRight => 4,
        BinaryOp::Or => 4,
        BinaryOp::Xor => 4,
        BinaryOp::Append => 5,
        BinaryOp::Remove => 5,
        BinaryOp::Equal => 6,
        BinaryOp::Unequal => 6,
        BinaryOp::AtMost => 6,
        BinaryOp::LessThan => 6,
        BinaryOp::AtLeast => 6,
        BinaryOp::GreaterThan => 6,
        BinaryOp::ExactlyEqual => 6,
        BinaryOp::ExactlyUnequal => 6,
    }
}

/// How loose the left operand of an operator of this level may be.
fn left_level(level: u32) -> u32
    ensures { result ≡ left_at level }
{
    if level == 3 {
        return level;
    }
    if level == 4 {
        return level;
    }
    level.saturating_sub(1)
}

/// How loose the right operand of an operator of this level may be.
fn right_level(level: u32) -> u32
    ensures { result ≡ right_at level }
{
    if level == 3 {
        return 2;
    }
    if level == 4 {
        return 3;
    }
    if level == 6 {
        return 5;
    }
    if level == 9 {
        return 10;
    }
    level
}

impl Operator {
    /// How loose it is.
    pub fn level(self) -> u32
        ensures { result ≡ operators.level (infix_from self) }
    {
        match self {
            Operator::Strict(op) => strict_level(op),
            Operator::AndAlso => 7,
            Operator::OrElse => 8,
            Operator::Send => 9,
        }
    }

    /// How loose its left operand may be.
    fn left(self) -> u32
        ensures { result ≡ operators.left (infix_from self) }
    {
        left_level(self.level())
    }

    /// How loose its right operand may be.
    pub fn right(self) -> u32
        ensures { result ≡ operators.right (infix_from self) }
    {
        right_level(self.level())
    }

    /// Its tree, on this line, between these operands.
    pub fn between(
        self,
        alloc: Global,
        line: u32,
        left: Box<Expr>,
        right: Box<Expr>,
    ) -> Result<Box<Expr>, AllocError>
        ensures { IfOk result (λ e. e.value ≡ operators.between line (infix_from self) left.value right.value) }
    {
        let node = match self {
            Operator::Strict(op) => {
                ExprNode::Apply(Operation::Binary(op), two(alloc, left, right)?)
            }
            Operator::AndAlso => ExprNode::AndAlso(left, right),
            Operator::OrElse => ExprNode::OrElse(left, right),
            Operator::Send => ExprNode::Apply(Operation::Send, two(alloc, left, right)?),
        };
        Ok(boxed(alloc, line, node)?)
    }
}

/// The operator that stands first, and what stands behind it.
fn first_operator<'a>(tokens: Cursor<'a>) -> Option<(Operator, Cursor<'a>)>
    requires fits { Fits tokens }
    ensures finds { option_map (λ x. infix_from x.0) result ≡ infix_at (toks tokens.entry) }
    ensures behind { IfSome result (λ x. toks x.1 ≡ tail (toks tokens.entry)) }
    ensures moves { IfSome result (λ x. Moves tokens.entry x.1) }
{
    let (_, token, rest) = tokens.first()?;
    match token {
        Token::Mark(mark) => {
            let operator = operator_of(*mark)?;
            Some((operator, rest))
        }
        _ => None,
    }
}

/// The operator that stands first, where it takes an operand of this level on its left and is no looser
/// than asked, and what stands behind it.
pub fn taken<'a>(loosest: u32, level: u32, tokens: Cursor<'a>) -> Option<(Operator, Cursor<'a>)>
    requires fits { Fits tokens }
    ensures takes { MatchOption result (Stops loosest level (infix_at (toks tokens.entry))) (λ x. (infix_at (toks tokens.entry) ≡ Some (infix_from x.0)) × (takes loosest level (infix_from x.0) ≡ true) × (tail (toks tokens.entry) ≡ toks x.1)) }
    ensures moves { IfSome result (λ x. Moves tokens.entry x.1) }
{
    let (operator, rest) = first_operator(tokens)?;
    if operator.level() <= loosest && level <= operator.left() {
        return Some((operator, rest));
    }
    None
}
