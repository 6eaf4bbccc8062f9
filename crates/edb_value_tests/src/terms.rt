//! Terms by their texts, and terms that are too large for one, or have none.

use edb_lang::{FunValue, Name, Node, Term};
use edb_parse::parse_term;
use edb_scan::scan;
use std::alloc::Global;
use std::test::Fail;

/// The elements of the list with this text.
pub(crate) fn rows(alloc: Global, text: &str) -> Result<Vec<Term>, Fail> {
    let Ok(tokens) = scan(alloc, text.as_bytes())? else {
        return Err(Fail::from("a text without tokens"));
    };
    match parse_term(alloc, &tokens)? {
        Ok(list) => meant_all(alloc, &list),
        Err(_) => Err(Fail::from("a text that is no term")),
    }
}

/// What the elements of a list stand for.
pub(crate) fn meant_all(alloc: Global, list: &Term) -> Result<Vec<Term>, Fail> {
    let mut items = Vec::new(alloc);
    for item in list.elements(alloc)?.ok_or("not a list")? {
        items.push(meant(alloc, item)?)?;
    }
    Ok(items)
}

/// The name that an atom is.
pub(crate) fn name(term: &Term) -> Result<&str, Fail> {
    match &term.node {
        Node::Atom(name) => Ok(name.as_str()),
        _ => Err(Fail::from("not an atom")),
    }
}

/// The elements of a tuple.
pub(crate) fn fields(term: &Term) -> Result<&[Term], Fail> {
    match &term.node {
        Node::Tuple(items) => Ok(items.as_slice()),
        _ => Err(Fail::from("not a tuple")),
    }
}

/// The name at the front of a row.
pub(crate) fn front(row: &Term) -> Result<&str, Fail> {
    name(fields(row)?.first().ok_or("an empty row")?)
}

/// What the last field of a row stands for.
pub(crate) fn last(alloc: Global, row: &Term) -> Result<Term, Fail> {
    meant(alloc, fields(row)?.last().ok_or("an empty row")?)
}

/// What a term in a row stands for: the atoms `highest` and `lowest` for the ends of the range of integers, a tuple of a
/// word and a number for what `made` makes, and each other term for itself.
pub(crate) fn meant(alloc: Global, term: &Term) -> Result<Term, Fail> {
    let found = match &term.node {
        Node::Atom(word) => made(alloc, word.as_str(), 0, None)?,
        Node::Tuple(items) => made_of(alloc, items)?,
        _ => None,
    };
    match found {
        Some(term) => Ok(term),
        None => Ok(term.copy(alloc)?),
    }
}

// What a tuple of a word, a number and maybe one term more stands for, if it does.
fn made_of(alloc: Global, items: &[Term]) -> Result<Option<Term>, Fail> {
    let (word, count, last) = match items {
        [word, count] => (word, count, None),
        [word, count, last] => (word, count, Some(last)),
        _ => return Ok(None),
    };
    match (&word.node, &count.node) {
        (Node::Atom(word), Node::Int(count)) => match u32::try_from(*count) {
            Ok(count) => made(alloc, word.as_str(), count, last),
            Err(_) => Ok(None),
        },
        _ => Ok(None),
    }
}

// What a word stands for, if it does, with a number and maybe one term more.
fn made(alloc: Global, word: &str, count: u32, last: Option<&Term>) -> Result<Option<Term>, Fail> {
    let term = match word {
        "highest" => Term::int(i128::MAX),
        "lowest" => Term::int(i128::MIN),
        // so many times the number 0, and then the last term
        "zeros" => list(alloc, repeated(alloc, count, 0)?, last)?,
        "letters" => list(alloc, repeated(alloc, count, 97)?, last)?,
        // two lists of zeros: so many, and 2,000
        "zero_lists" => zero_lists(alloc, count)?,
        // from 1 on
        "numbers" => list(alloc, numbers(alloc, count)?, last)?,
        // a tuple of so many zeros, its size one more than that; and a list and a tuple of it alone
        "wide" => tuple(alloc, repeated(alloc, count, 0)?)?,
        "wide_in_list" => list(
            alloc,
            one(alloc, tuple(alloc, repeated(alloc, count, 0)?)?)?,
            None,
        )?,
        "wide_in_tuple" => tuple(
            alloc,
            one(alloc, tuple(alloc, repeated(alloc, count, 0)?)?)?,
        )?,
        "letters_atom" => letters_atom(alloc, count)?,
        "pid" => Term::pid(count),
        "reference" => Term::reference(count),
        // a fun that names a function with so many arguments
        "function" => function(alloc, count)?,
        _ => return Ok(None),
    };
    Ok(Some(term))
}

fn list(alloc: Global, items: Vec<Term>, last: Option<&Term>) -> Result<Term, Fail> {
    let tail = match last {
        Some(tail) => tail.copy(alloc)?,
        None => Term::nil(),
    };
    Ok(Term::list(alloc, items, tail)??)
}

fn tuple(alloc: Global, items: Vec<Term>) -> Result<Term, Fail> {
    Ok(Term::tuple(alloc, items)??)
}

fn repeated(alloc: Global, count: u32, number: i128) -> Result<Vec<Term>, Fail> {
    let mut items = Vec::new(alloc);
    for _ in 0..count {
        items.push(Term::int(number))?;
    }
    Ok(items)
}

fn numbers(alloc: Global, count: u32) -> Result<Vec<Term>, Fail> {
    let mut items = Vec::new(alloc);
    for place in 0..count {
        items.push(Term::int(i128::from(place) + 1))?;
    }
    Ok(items)
}

fn one(alloc: Global, item: Term) -> Result<Vec<Term>, Fail> {
    let mut items = Vec::new(alloc);
    items.push(item)?;
    Ok(items)
}

fn zero_lists(alloc: Global, count: u32) -> Result<Term, Fail> {
    let mut lists = one(alloc, list(alloc, repeated(alloc, count, 0)?, None)?)?;
    lists.push(list(alloc, repeated(alloc, 2_000, 0)?, None)?)?;
    list(alloc, lists, None)
}

fn letters_atom(alloc: Global, count: u32) -> Result<Term, Fail> {
    let mut text = String::new(alloc);
    for _ in 0..count {
        text.push('a')?;
    }
    Ok(Term::atom(Name::new(text)))
}

fn function(alloc: Global, arity: u32) -> Result<Term, Fail> {
    let fun = FunValue::Named {
        module: Name::from_str(alloc, "m")?,
        name: Name::from_str(alloc, "f")?,
        arity,
    };
    Ok(Term {
        node: Node::Fun(Box::new(alloc, fun)?),
    })
}
