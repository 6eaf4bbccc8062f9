//! Formats and their texts, worked out by hand.

use edb_format::{BadFormat, format_text, plain_text};
use edb_lang::{Cell, Name, Node, Term};
use std::alloc::{AllocError, Global};
use std::test::Fail;

// Formats that take nothing, with their texts.
const TEXTS: [(&'static str, &'static [u8]); 7] = [
    ("", b""),
    ("sum of 2 pids", b"sum of 2 pids"),
    ("~n", b"\n"),
    ("~~", b"~"),
    ("~~n~~~n", b"~n~\n"),
    ("\u{e4}~~", b"\xc3\xa4~"),
    ("\u{1f600}\u{20ac}", b"\xf0\x9f\x98\x80\xe2\x82\xac"),
];

// Code points, with what `~s` writes of a list of them.
const STRINGS: [(&'static [i128], &'static [u8]); 8] = [
    (&[], b""),
    (&[97, 126, 112], b"a~p"),
    (&[0, 34, 92], b"\0\"\\"),
    (&[228], b"\xc3\xa4"),
    (&[8_364], b"\xe2\x82\xac"),
    (&[0xd7ff], b"\xed\x9f\xbf"),
    (&[0xe000], b"\xee\x80\x80"),
    (&[1_114_111, 10], b"\xf4\x8f\xbf\xbf\n"),
];

// Integers of which a list is no string.
const NO_STRINGS: [&'static [i128]; 5] = [
    &[-1],
    &[0xd800],
    &[97, 0xdfff],
    &[1_114_112, 97],
    &[4_294_967_393],
];

// Formats, each with a number of arguments that it doesn't take. Each argument is the empty list.
const BAD_FORMATS: [(&'static str, usize); 13] = [
    ("~", 0),
    ("~", 1),
    ("a~n~", 0),
    ("~~~", 0),
    ("~x", 0),
    ("~x", 1),
    ("~P", 1),
    ("~p", 0),
    ("~p", 2),
    ("~s~w", 1),
    ("~s~w", 3),
    ("", 1),
    ("~n", 1),
];

/// A list cell.
fn cell(alloc: Global, head: Term, tail: Term) -> Result<Term, AllocError> {
    let cell = Box::new(alloc, Cell { head, tail })?;
    Ok(Term {
        node: Node::List(cell),
    })
}

/// A list of one term.
fn one(alloc: Global, term: Term) -> Result<Term, AllocError> {
    cell(alloc, term, Term::nil())
}

/// A list of so many empty lists.
fn empty_lists(alloc: Global, count: usize) -> Result<Term, AllocError> {
    let mut list = Term::nil();
    for _ in 0..count {
        list = cell(alloc, Term::nil(), list)?;
    }
    Ok(list)
}

/// A list of integers.
fn integers(alloc: Global, values: &[i128]) -> Result<Term, AllocError> {
    let mut list = Term::nil();
    for value in values.iter().rev() {
        list = cell(alloc, Term::int(*value), list)?;
    }
    Ok(list)
}

/// A string.
fn string(alloc: Global, text: &str) -> Result<Term, AllocError> {
    let mut list = Term::nil();
    for character in text.chars().rev() {
        list = cell(alloc, Term::int(character as i128), list)?;
    }
    Ok(list)
}

/// An atom.
fn atom(alloc: Global, name: &str) -> Result<Term, AllocError> {
    Ok(Term::atom(Name::from_str(alloc, name)?))
}

/// `{ok,"ab",[1|x]}`
fn nested(alloc: Global) -> Result<Term, AllocError> {
    let improper = cell(alloc, Term::int(1), atom(alloc, "x")?)?;
    let items = vec![in alloc; atom(alloc, "ok")?, string(alloc, "ab")?, improper]?;
    Ok(Term {
        node: Node::Tuple(items),
    })
}

/// `[1|2]`
fn improper(alloc: Global) -> Result<Term, AllocError> {
    cell(alloc, Term::int(1), Term::int(2))
}

/// Whether a format makes this text of its arguments.
fn makes(alloc: Global, format: &str, args: Term, wanted: &[u8]) -> Result<bool, AllocError> {
    let format = string(alloc, format)?;
    match format_text(alloc, &format, &args)? {
        Ok(text) => Ok(text.as_slice() == wanted),
        Err(BadFormat) => Ok(false),
    }
}

/// Whether a format makes this text of one argument.
fn shows(alloc: Global, format: &str, term: Term, wanted: &[u8]) -> Result<bool, AllocError> {
    makes(alloc, format, one(alloc, term)?, wanted)
}

/// Whether a format is refused with these arguments.
fn refuses(alloc: Global, format: &str, args: Term) -> Result<bool, AllocError> {
    let format = string(alloc, format)?;
    Ok(format_text(alloc, &format, &args)?.is_err())
}

/// Whether a term is no format.
fn is_no_format(alloc: Global, format: Term) -> Result<bool, AllocError> {
    Ok(format_text(alloc, &format, &Term::nil())?.is_err())
}

/// Whether `~s` is refused of a term.
fn is_no_string(alloc: Global, term: Term) -> Result<bool, AllocError> {
    refuses(alloc, "~s", one(alloc, term)?)
}

#[test]
fn characters_stand_for_themselves(rt: HostRuntime) -> Result<(), Fail> {
    for (format, wanted) in TEXTS {
        assert!(rt; makes(rt.alloc(), format, Term::nil(), wanted)?);
    }
    Ok(())
}

#[test]
fn strings_stand_in_utf8(rt: HostRuntime) -> Result<(), Fail> {
    for (points, wanted) in STRINGS {
        assert!(rt; shows(rt.alloc(), "~s", integers(rt.alloc(), points)?, wanted)?);
    }
    Ok(())
}

#[test]
fn terms_are_shown(rt: HostRuntime) -> Result<(), Fail> {
    let alloc = rt.alloc();
    assert!(rt; shows(alloc, "<~p>", string(alloc, "ab")?, b"<\"ab\">")?);
    assert!(rt; shows(alloc, "<~w>", string(alloc, "ab")?, b"<[97,98]>")?);
    assert!(rt; shows(alloc, "~s", atom(alloc, "\u{e4} b")?, b"\xc3\xa4 b")?);
    assert!(rt; shows(alloc, "~p~n", atom(alloc, "\u{e4} b")?, b"'\xc3\xa4 b'\n")?);
    Ok(())
}

#[test]
fn nested_terms_are_shown(rt: HostRuntime) -> Result<(), Fail> {
    let alloc = rt.alloc();
    assert!(rt; shows(alloc, "~p", nested(alloc)?, b"{ok,\"ab\",[1|x]}")?);
    assert!(rt; shows(alloc, "~w", nested(alloc)?, b"{ok,[97,98],[1|x]}")?);
    let plain = plain_text(alloc, &nested(alloc)?)?;
    assert!(rt; plain.as_slice() == b"{ok,[97,98],[1|x]}".as_slice());
    Ok(())
}

#[test]
fn arguments_are_taken_in_order(rt: HostRuntime) -> Result<(), Fail> {
    let alloc = rt.alloc();
    let text = one(alloc, string(alloc, "ab")?)?;
    let args = cell(alloc, Term::int(-1), text)?;
    assert!(rt; makes(alloc, "~w, ~s", args, b"-1, ab")?);
    Ok(())
}

#[test]
fn bad_formats_are_refused(rt: HostRuntime) -> Result<(), Fail> {
    for (format, count) in BAD_FORMATS {
        assert!(rt; refuses(rt.alloc(), format, empty_lists(rt.alloc(), count)?)?);
    }
    Ok(())
}

#[test]
fn other_integers_are_refused(rt: HostRuntime) -> Result<(), Fail> {
    for values in NO_STRINGS {
        assert!(rt; is_no_string(rt.alloc(), integers(rt.alloc(), values)?)?);
        assert!(rt; is_no_format(rt.alloc(), integers(rt.alloc(), values)?)?);
    }
    Ok(())
}

#[test]
fn other_terms_are_refused(rt: HostRuntime) -> Result<(), Fail> {
    let alloc = rt.alloc();
    assert!(rt; is_no_format(alloc, atom(alloc, "a")?)?);
    assert!(rt; is_no_format(alloc, improper(alloc)?)?);
    assert!(rt; is_no_string(alloc, Term::int(97))?);
    assert!(rt; is_no_string(alloc, improper(alloc)?)?);
    assert!(rt; is_no_string(alloc, one(alloc, atom(alloc, "a")?)?)?);
    Ok(())
}

#[test]
fn other_arguments_are_refused(rt: HostRuntime) -> Result<(), Fail> {
    let alloc = rt.alloc();
    assert!(rt; refuses(alloc, "a", atom(alloc, "a")?)?);
    assert!(rt; refuses(alloc, "~p", improper(alloc)?)?);
    assert!(rt; refuses(alloc, "~p~p", improper(alloc)?)?);
    Ok(())
}
