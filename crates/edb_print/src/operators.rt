//! Operators: their marks, and which expressions are in parentheses beside them.

ghost use Rattle.std.specs.Prelude.{◌≡◌, ◌||◌};
ghost use Rattle.edb_print.specs.Layout.{prefix_mark, infix_mark, is_operator, is_call, is_open};
ghost use Rattle.edb_print.specs.Layout as layout;
ghost use Rattle.edb_print.specs.Views.{gap_of};

use crate::gaps::Gap;
use edb_lang::{BinaryOp, UnaryOp};
use edb_scan::Mark;
use edb_syntax::{Expr, ExprNode, Operation};

/// The mark of an operator before its operand.
pub(crate) fn prefix(op: UnaryOp) -> Mark
    ensures { result ≡ prefix_mark op }
{
    match op {
        UnaryOp::Plus => Mark::Plus,
        UnaryOp::Minus => Mark::Minus,
        UnaryOp::BitNot => Mark::BitNot,
        UnaryOp::Not => Mark::Not,
    }
}

/// The gap after it.
pub(crate) fn prefix_gap(op: UnaryOp) -> Gap
    ensures { gap_of result ≡ layout.prefix_gap op }
{
    match op {
        UnaryOp::Plus => Gap::Tight,
        UnaryOp::Minus => Gap::Tight,
        UnaryOp::BitNot => Gap::Blank,
        UnaryOp::Not => Gap::Blank,
    }
}

/// The mark of an operator between its operands.
pub(crate) fn infix(op: BinaryOp) -> Mark
    ensures { result ≡ infix_mark op }
{
    match op {
        BinaryOp::Divide => Mark::Slash,
        BinaryOp::Multiply => Mark::Star,
        BinaryOp::Div => Mark::Div,
        BinaryOp::Rem => Mark::Rem,
        BinaryOp::BitAnd => Mark::BitAnd,
        BinaryOp::And => Mark::And,
        BinaryOp::Add => Mark::Plus,
        BinaryOp::Subtract => Mark::Minus,
        BinaryOp::BitOr => Mark::BitOr,
        BinaryOp::BitXor => Mark::BitXor,
        BinaryOp::ShiftLeft => Mark::ShiftLeft,
        BinaryOp::ShiftRight => Mark::ShiftRight,
        BinaryOp::Or => Mark::Or,
        BinaryOp::Xor => Mark::Xor,
        BinaryOp::Append => Mark::PlusPlus,
        BinaryOp::Remove => Mark::MinusMinus,
        BinaryOp::Equal => Mark::Equal,
        BinaryOp::Unequal => Mark::Unequal,
        BinaryOp::AtMost => Mark::AtMost,
        BinaryOp::LessThan => Mark::LessThan,
        BinaryOp::AtLeast => Mark::AtLeast,
        BinaryOp::GreaterThan => Mark::GreaterThan,
        BinaryOp::ExactlyEqual => Mark::ExactlyEqual,
        BinaryOp::ExactlyUnequal => Mark::ExactlyUnequal,
    }
}

/// Whether an expression is in parentheses as an operand.
pub(crate) fn is_loose(expr: &Expr) -> bool
    ensures { result ≡ is_operator expr.now }
{
    match &expr.node {
        ExprNode::Int(value) => *value < 0,
        ExprNode::Apply(operation, _) => match operation {
            Operation::Unary(_) => true,
            Operation::Binary(_) => true,
            Operation::Send => true,
            _ => false,
        },
        ExprNode::AndAlso(..) => true,
        ExprNode::OrElse(..) => true,
        ExprNode::Match(..) => true,
        ExprNode::Catch(_) => true,
        _ => false,
    }
}

/// Whether an expression is a call.
fn calls(expr: &Expr) -> bool
    ensures { result ≡ is_call expr.now }
{
    match &expr.node {
        ExprNode::Apply(operation, _) => match operation {
            Operation::LocalCall(_) => true,
            Operation::RemoteCall => true,
            Operation::FunCall => true,
            _ => false,
        },
        _ => false,
    }
}

/// Whether an expression is in parentheses when it is called.
pub(crate) fn is_looser(expr: &Expr) -> bool
    ensures { result ≡ is_open expr.now }
{
    is_loose(expr) || calls(expr)
}
