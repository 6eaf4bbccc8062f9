//! Whether a term is a literal.

ghost use Rattle.std.specs.Prelude.{◌≡◌};
ghost use Rattle.edb_lang.specs.Terms as spec;
ghost use Rattle.edb_lang.specs.ListTerms.{string_of};
ghost use Rattle.edb_match.specs.Points.{behind_point};
ghost use Rattle.edb_pure.specs.Truths.{same_term};
ghost use Rattle.std.specs.Option.{option_copied};

use edb_lang::{Name, Node, Term};

/// Whether the term is this integer.
pub(crate) fn is_int(value: i128, term: &Term) -> bool
    ensures { result ≡ same_term (spec.int value) term.now }
{
    match &term.node {
        Node::Int(other) => value.cmp(other).is_eq(),
        _ => false,
    }
}

/// Whether the term is the atom of this name.
pub(crate) fn is_atom(name: &Name, term: &Term) -> bool
    ensures { result ≡ same_term (spec.atom name.now) term.now }
{
    match &term.node {
        Node::Atom(other) => name.cmp(other).is_eq(),
        _ => false,
    }
}

/// Whether the term is the empty list.
pub(crate) fn is_nil(term: &Term) -> bool
    ensures { result ≡ same_term spec.nil term.now }
{
    match &term.node {
        Node::Nil => true,
        _ => false,
    }
}

/// Whether the term is the string of these code points.
pub(crate) fn is_string(points: &[u32], term: &Term) -> bool
    ensures { result ≡ same_term (string_of points.now) term.now }
{
    let mut rest = term;
    for point in points {
        let Some(tail) = behind(*point, rest) else {
            return false;
        };
        rest = tail;
    }
    is_nil(rest)
}

/// What is behind the first element of a list that begins with this code point.
fn behind(point: u32, term: &Term) -> Option<&Term>
    ensures { option_copied result ≡ behind_point point term.now }
{
    let Node::List(cell) = &term.node else {
        return None;
    };
    if is_int(i128::from(point), &cell.head) {
        Some(&cell.tail)
    } else {
        None
    }
}
