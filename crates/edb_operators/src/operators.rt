//! Each operator by its name.

ghost use Rattle.std.specs.Prelude.{◌≡◌, IfOk};
ghost use Rattle.edb_pure.specs.Operators as spec;

use crate::raises::badarith;
use crate::{bits, integers, joins, truths};
use edb_lang::{BinaryOp, Term, UnaryOp};
use edb_pure::Raise;
use std::alloc::{AllocError, Global};

/// What an operator gives of the values of its two operands: a value, or the exception that it raises. Arithmetic and
/// bits raise `badarith` for what is no integer; truth values and lists raise `badarg` for what is neither; a result past
/// a limit is `system_limit`. The time is linear in the sizes of the operands, but `--` may compare each element of the
/// left list with each of the right one. `AllocError` only if out of memory.
pub fn operate(
    alloc: Global,
    op: BinaryOp,
    left: &Term,
    right: &Term,
) -> Result<Result<Term, Raise>, AllocError>
    ensures { IfOk result (λ r. r ≡ spec.operate op left.now right.now) }
{
    match op {
        BinaryOp::Divide => badarith(alloc),
        BinaryOp::Multiply => integers::multiply(alloc, left, right),
        BinaryOp::Div => integers::divide(alloc, left, right),
        BinaryOp::Rem => integers::remainder(alloc, left, right),
        BinaryOp::BitAnd => bits::both_bits(alloc, left, right),
        BinaryOp::And => truths::both(alloc, left, right),
        BinaryOp::Add => integers::add(alloc, left, right),
        BinaryOp::Subtract => integers::subtract(alloc, left, right),
        BinaryOp::BitOr => bits::either_bits(alloc, left, right),
        BinaryOp::BitXor => bits::one_bits(alloc, left, right),
        BinaryOp::ShiftLeft => bits::shift_left(alloc, left, right),
        BinaryOp::ShiftRight => bits::shift_right(alloc, left, right),
        BinaryOp::Or => truths::either(alloc, left, right),
        BinaryOp::Xor => truths::one_alone(alloc, left, right),
        BinaryOp::Append => joins::append(alloc, left, right),
        BinaryOp::Remove => joins::subtract(alloc, left, right),
        BinaryOp::Equal => truths::equal(alloc, left, right),
        BinaryOp::Unequal => truths::unequal(alloc, left, right),
        BinaryOp::AtMost => truths::at_most(alloc, left, right),
        BinaryOp::LessThan => truths::less_than(alloc, left, right),
        BinaryOp::AtLeast => truths::at_least(alloc, left, right),
        BinaryOp::GreaterThan => truths::greater_than(alloc, left, right),
        BinaryOp::ExactlyEqual => truths::equal(alloc, left, right),
        BinaryOp::ExactlyUnequal => truths::unequal(alloc, left, right),
    }
}

/// What an operator before its operand gives of that one's value, or the exception that it raises: `badarith` for what
/// is no integer, `badarg` if `not` has no truth value, `system_limit` for an integer out of the range. `AllocError`
/// only if out of memory.
pub fn operate_one(
    alloc: Global,
    op: UnaryOp,
    value: &Term,
) -> Result<Result<Term, Raise>, AllocError>
    ensures { IfOk result (λ r. r ≡ spec.operate_one op value.now) }
{
    match op {
        UnaryOp::Plus => integers::plus(alloc, value),
        UnaryOp::Minus => integers::negate(alloc, value),
        UnaryOp::BitNot => bits::other_bits(alloc, value),
        UnaryOp::Not => truths::opposite(alloc, value),
    }
}
