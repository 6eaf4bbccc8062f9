//! The value of a variable in a list of bindings.

ghost use Rattle.std.specs.Prelude.{◌≡◌, IfOk, None};
ghost use Rattle.std.specs.Option.{option_map, option_copied};
ghost use Rattle.edb_lang.specs.Terms as spec;
ghost use Rattle.edb_pure.specs.Lookups as row;
ghost use Rattle.edb_values.specs.Found.{first_of, found_from, value_answer};

use crate::raises::{badarg, tuple_answer};
use edb_lang::{Name, Node, Term};
use edb_pure::Raise;
use std::alloc::{AllocError, Global};

/// `int:get_binding/2`: `{value,V}` of the first pair with the name, or `unbound`. The error `badarg` if the name is no
/// atom, or the bindings are no proper list of pairs of an atom and a term; `system_limit` if the answer would pass a
/// limit; `AllocError` only if out of memory.
pub fn get_binding(
    alloc: Global,
    name: &Term,
    bindings: &Term,
) -> Result<Result<Term, Raise>, AllocError>
    ensures { IfOk result (λ r. r ≡ row.get_binding name.now bindings.now) }
{
    let Node::Atom(name) = &name.node else {
        return badarg(alloc);
    };
    match lookup(name, bindings) {
        Some(found) => found_answer(alloc, found),
        None => badarg(alloc),
    }
}

// `{value,V}` of a value, or `unbound`.
fn found_answer(alloc: Global, found: Option<&Term>) -> Result<Result<Term, Raise>, AllocError>
    ensures { IfOk result (λ r. r ≡ value_answer (option_copied found.entry)) }
{
    let Some(value) = found else {
        let unbound = Name::from_str(alloc, "unbound")?;
        return Ok(Ok(Term::atom(unbound)));
    };
    let word = Name::from_str(alloc, "value")?;
    let mut items = Vec::new(alloc);
    items.push(Term::atom(word))?;
    items.push(value.copy(alloc)?)?;
    tuple_answer(alloc, items)
}

// The value of the first pair with the name, if there is one; `None` if the list isn't proper or not of pairs alone.
fn lookup<'a>(name: &Name, list: &'a Term) -> Option<Option<&'a Term>>
    ensures { option_map (λ found. option_copied found) result ≡ found_from None name.now list.now }
{
    let mut found = None;
    let mut rest = list;
    while let Node::List(cell) = &rest.node {
        let Some((bound, value)) = binding(&cell.head) else {
            return None;
        };
        found = first(found, name.same(bound), value);
        rest = &cell.tail;
    }
    match &rest.node {
        Node::Nil => Some(found),
        _ => None,
    }
}

// What was found before, or else the value if its name is the one.
fn first<'a>(found: Option<&'a Term>, is_named: bool, value: &'a Term) -> Option<&'a Term>
    ensures { option_copied result ≡ first_of (option_copied found.entry) is_named value.now }
{
    match found {
        Some(earlier) => Some(earlier),
        None => { if is_named { Some(value) } else { None } }
    }
}

// The name and the value of a binding.
fn binding(value: &Term) -> Option<(&Name, &Term)>
    ensures { option_map (λ p. (p.0.now, p.1.now)) result ≡ row.binding_of value.now }
{
    match &value.node {
        Node::Tuple(items) => name_and_value(items),
        _ => None,
    }
}

// The same of a tuple's elements.
fn name_and_value(items: &[Term]) -> Option<(&Name, &Term)>
    ensures { option_map (λ p. (p.0.now, p.1.now)) result ≡ row.binding_of (spec.tuple (spec.of_list items.now)) }
{
    let (name, rest) = items.split_first()?;
    let Node::Atom(name) = &name.node else {
        return None;
    };
    let (value, others) = rest.split_first()?;
    if others.is_empty() {
        Some((name, value))
    } else {
        None
    }
}
