//! Operations that aren't run yet.

ghost use Rattle.std.specs.Prelude.{◌≡◌, codes};
ghost use Rattle.edb_syntax.specs.Syntax.{exps_of};
ghost use Rattle.edb_moves.specs.Next as next;
ghost use Rattle.edb_notyet.specs.Calls as calls;

use edb_lang::Name;
use edb_syntax::{Expr, ExprNode, Operation};
use edb_table::marks_of;
use edb_units::Unit;

// Whether a built-in of this module and name with so many parameters prints.
fn prints(home: &str, name: &str, arity: u8) -> bool
    ensures { result ≡ next.prints (home.now, (name.now, arity)) }
{
    (home == "erlang" && name == "display" && arity == 1)
        || (home == "io" && name == "format" && (arity == 1 || arity == 2))
}

// Whether this is a built-in that isn't run yet.
fn built_in_is_beyond(home: &str, name: &str, arity: u8) -> bool
    ensures { result ≡ calls.built_in_is_beyond (home.now, (name.now, arity)) }
{
    marks_of(home, name, arity).shared && !prints(home, name, arity)
}

// Whether a call without a module isn't run yet.
fn local_call_is_beyond(unit: &Unit<'_>, name: &Name, arity: usize) -> bool
    ensures { result ≡ calls.local_call_is_beyond unit.now name.now arity }
{
    match u8::try_from(arity) {
        Ok(arity) => unit.function(name, u32::from(arity)).is_none()
            && marks_of("erlang", name.as_str(), arity).auto
            && built_in_is_beyond("erlang", name.as_str(), arity),
        Err(_) => false,
    }
}

// Whether a call with this module and this name isn't run yet.
pub(crate) fn named_call_is_beyond(home: &Name, name: &Name, arity: usize) -> bool
    ensures { result ≡ calls.built_in_is_beyond (home.now, (name.now, arity)) }
{
    match u8::try_from(arity) {
        Ok(arity) => built_in_is_beyond(home.as_str(), name.as_str(), arity),
        Err(_) => false,
    }
}

// Whether a call with a module isn't run yet, whatever its arguments are.
fn call_is_beyond(home: &Expr, name: &Expr, arity: usize) -> bool
    ensures { result ≡ calls.call_is_beyond home.now name.now arity }
{
    match &home.node {
        ExprNode::Atom(home) => match &name.node {
            ExprNode::Atom(name) => named_call_is_beyond(home, name, arity),
            _ => false,
        },
        _ => false,
    }
}

// Whether these are the operands of a call with a module that isn't run yet.
fn remote_call_is_beyond(operands: &[Expr]) -> bool
    ensures { result ≡ calls.remote_call_is_beyond (exps_of operands.now) }
{
    match operands {
        [home, name, args @ ..] => call_is_beyond(home, name, args.len()),
        _ => false,
    }
}

/// Whether an operation isn't run yet, whatever its operands are.
pub(crate) fn operation_is_beyond(unit: &Unit<'_>, operation: &Operation, operands: &[Expr]) -> bool
    ensures { result ≡ calls.operation_is_beyond unit.now operation.now (exps_of operands.now) }
{
    match operation {
        Operation::Tuple => false,
        Operation::List => false,
        Operation::ListWithTail => false,
        Operation::Unary(_) => false,
        Operation::Binary(_) => false,
        Operation::Send => true,
        Operation::LocalCall(name) => local_call_is_beyond(unit, name, operands.len()),
        Operation::RemoteCall => remote_call_is_beyond(operands),
        Operation::FunCall => false,
    }
}
