//! The values of operands, to be looked at.

ghost use Rattle.std.specs.Prelude.{◌≡◌, IfOk, map, unwrap_or};
ghost use Rattle.edb_lang.specs.Terms.{nil};
ghost use Rattle.edb_guards.specs.Views.{value_of};
ghost use Rattle.edb_variables.specs.PairStacks.{value_at};
ghost use Rattle.edb_stack.specs.Views.{literal};
ghost use Rattle.edb_stack.specs.Redexes.{value_in, values_in};

use edb_guards::Value;
use edb_lang::Term;
use edb_stack::Item;
use edb_syntax::{Expr, ExprNode};
use edb_variables::Variables;
use std::alloc::{AllocError, Global};

/// The value of an operand under these bindings: lent where the operand is one or stands among the bindings, made where it
/// is a literal. At a place where there is no pair it is `[]`. `AllocError` only if out of memory, here and in all that
/// follows.
pub fn see<'b>(
    alloc: Global,
    variables: &'b Variables,
    item: &'b Item,
) -> Result<Value<'b>, AllocError>
    ensures { IfOk result (λ seen. value_of seen ≡ value_in variables.entry.now.pairs item.entry.now) }
{
    match item {
        Item::Value(term) => Ok(Value::Lent(term)),
        Item::Placed(place) => Ok(see_place(variables, *place)),
        Item::Literal(code) => Ok(Value::Made(literal_term(alloc, code)?)),
    }
}

/// The values of operands, in their order.
pub fn see_all<'b>(
    alloc: Global,
    variables: &'b Variables,
    items: &'b [Item],
) -> Result<Vec<Value<'b>>, AllocError>
    ensures { IfOk result (λ seen. map value_of seen.items ≡ values_in variables.entry.now.pairs items.entry.now) }
{
    let mut seen = Vec::with_capacity(alloc, items.len())?;
    for item in items {
        seen.push(see(alloc, variables, item)?)?;
    }
    Ok(seen)
}

/// The value that an integer or an atom is as it is written; of any other code, `[]`.
pub fn literal_term(alloc: Global, code: &Expr) -> Result<Term, AllocError>
    ensures { IfOk result (λ term. term ≡ literal code.now) }
{
    match &code.node {
        ExprNode::Int(number) => Ok(Term::int(*number)),
        ExprNode::Atom(name) => Ok(Term::atom(name.copy(alloc)?)),
        _ => Ok(Term::nil()),
    }
}

/// The value of the pair at this place.
fn see_place<'b>(variables: &'b Variables, place: usize) -> Value<'b>
    ensures { value_of result ≡ unwrap_or (value_at place variables.entry.now.pairs) nil }
{
    match variables.get(place) {
        Some(term) => Value::Lent(term),
        None => Value::Made(Term::nil()),
    }
}
