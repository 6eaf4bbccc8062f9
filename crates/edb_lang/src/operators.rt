//! The operators of expressions, of which each operand is evaluated.

/// An operator before its operand.
#[derive(Clone, Copy, PartialEq, Eq, Debug)]
pub enum UnaryOp {
    /// `+`
    Plus,
    /// `-`
    Minus,
    /// `bnot`
    BitNot,
    /// `not`
    Not,
}

/// An operator between two operands, both of which are evaluated.
#[derive(Clone, Copy, PartialEq, Eq, Debug)]
pub enum BinaryOp {
    /// `/`, which the checker refuses
    Divide,
    /// `*`
    Multiply,
    /// `div`
    Div,
    /// `rem`
    Rem,
    /// `band`
    BitAnd,
    /// `and`
    And,
    /// `+`
    Add,
    /// `-`
    Subtract,
    /// `bor`
    BitOr,
    /// `bxor`
    BitXor,
    /// `bsl`
    ShiftLeft,
    /// `bsr`
    ShiftRight,
    /// `or`
    Or,
    /// `xor`
    Xor,
    /// `++`
    Append,
    /// `--`
    Remove,
    /// `==`
    Equal,
    /// `/=`
    Unequal,
    /// `=<`
    AtMost,
    /// `<`
    LessThan,
    /// `>=`
    AtLeast,
    /// `>`
    GreaterThan,
    /// `=:=`
    ExactlyEqual,
    /// `=/=`
    ExactlyUnequal,
}
