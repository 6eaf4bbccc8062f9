//! What is done with operands.

ghost use Rattle.std.specs.Prelude.{◌≡◌, ◌≢◌, MatchOption};
ghost use Rattle.edb_syntax.specs.declared.operation.Operation.TheVariants.{Send};
ghost use Rattle.edb_moves.specs.Running.{written};
ghost use Rattle.edb_stack.specs.Views.{doing_of};

use edb_lang::{BinaryOp, Name, UnaryOp};
use edb_syntax::Operation;
use edb_units::Unit;

/// What is done with operands once all of them are values.
#[derive(Clone, Copy)]
pub enum Doing<'a> {
    /// `{A, B}`
    Tuple,
    /// `[A, B]`
    List,
    /// `[A, B | T]`
    ListWithTail,
    /// An operator before its operand.
    Unary(UnaryOp),
    /// An operator between its operands.
    Binary(BinaryOp),
    /// `f(A, B)`: a call without a module.
    LocalCall(&'a Name),
    /// The same call, as if it were written in this module, of this version.
    CallIn(&'a Unit<'a>, u32, &'a Name),
    /// `M:F(A, B)`: the first two operands name the function.
    RemoteCall,
    /// `E(A, B)`: the first operand is the fun.
    FunCall,
}

impl<'a> Doing<'a> {
    /// What an operation does; `None` for a send, which doesn't come yet.
    pub fn of(operation: &'a Operation) -> Option<Doing<'a>>
        ensures { MatchOption result (operation.now ≡ Send) (λ doing. (doing_of doing ≡ written operation.now) × (operation.now ≢ Send)) }
    {
        match operation {
            Operation::Tuple => Some(Doing::Tuple),
            Operation::List => Some(Doing::List),
            Operation::ListWithTail => Some(Doing::ListWithTail),
            Operation::Unary(operator) => Some(Doing::Unary(*operator)),
            Operation::Binary(operator) => Some(Doing::Binary(*operator)),
            Operation::Send => None,
            Operation::LocalCall(name) => Some(Doing::LocalCall(name)),
            Operation::RemoteCall => Some(Doing::RemoteCall),
            Operation::FunCall => Some(Doing::FunCall),
        }
    }
}
