//! Operations: what is done with operands once all of them are values.

ghost use Rattle.std.specs.Prelude.{◌≡◌, IfOk, nat_le};
ghost use Rattle.edb_syntax.specs.Depths.{name_depth};

use edb_lang::{BinaryOp, Name, UnaryOp};
use std::alloc::{AllocError, Global};

/// What is done with operands, which are evaluated from left to right.
#[derive(Drop)]
pub enum Operation {
    /// `{A, B}`: the tuple of the operands.
    Tuple,
    /// `[A, B]`: the list of the operands.
    List,
    /// `[A, B | T]`: the list of all operands but the last, which stands behind them.
    ListWithTail,
    /// An operator before its one operand.
    Unary(UnaryOp),
    /// An operator between its two operands.
    Binary(BinaryOp),
    /// `P ! M`: sends the second operand to the first.
    Send,
    /// `f(A, B)`: calls the function of this name of the module itself, or a built-in.
    LocalCall(Name),
    /// `M:F(A, B)`: calls a function of another module; the first two operands name them.
    RemoteCall,
    /// `E(A, B)`: calls the first operand, a fun.
    FunCall,
}

impl Operation {
    /// An equal operation; refused only for want of memory.
    pub fn copy(&self, alloc: Global) -> Result<Operation, AllocError>
        ensures { IfOk result (λ o. o ≡ self.now) }
    {
        match self {
            Operation::Tuple => Ok(Operation::Tuple),
            Operation::List => Ok(Operation::List),
            Operation::ListWithTail => Ok(Operation::ListWithTail),
            Operation::Unary(op) => Ok(Operation::Unary(*op)),
            Operation::Binary(op) => Ok(Operation::Binary(*op)),
            Operation::Send => Ok(Operation::Send),
            Operation::LocalCall(name) => Ok(Operation::LocalCall(name.copy(alloc)?)),
            Operation::RemoteCall => Ok(Operation::RemoteCall),
            Operation::FunCall => Ok(Operation::FunCall),
        }
    }

    /// Whether the name that the operation has is at most so deep.
    pub(crate) fn is_within(&self, levels: u32) -> bool
        ensures { result ≡ nat_le (name_depth self.now) levels }
    {
        match self {
            Operation::LocalCall(_) => levels > 0,
            _ => true,
        }
    }
}
