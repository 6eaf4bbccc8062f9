//! Texts, and the terms that they are.

use crate::texts::{nested, repeated};
use edb_lang::{Name, Term};
use edb_parse::parse_term;
use edb_scan::scan;
use std::alloc::Global;
use std::process::Abort;
use std::test::Fail;

/// An atom.
fn atom(alloc: Global, name: &str) -> Result<Term, Fail> {
    Ok(Term::atom(Name::from_str(alloc, name)?))
}

/// A list cell.
fn list(alloc: Global, head: Term, tail: Term) -> Result<Term, Fail> {
    Ok(Term::cons(alloc, head, tail)??)
}

/// The list of these characters.
fn text(alloc: Global, points: &[u32]) -> Result<Term, Fail> {
    let mut term = Term::nil();
    for point in points.iter().rev() {
        term = list(alloc, Term::int(i128::from(*point)), term)?;
    }
    Ok(term)
}

/// `[a,{b,"c"}|d]`
fn parts(alloc: Global) -> Result<Term, Fail> {
    let end = list(alloc, pair(alloc)?, atom(alloc, "d")?)?;
    list(alloc, atom(alloc, "a")?, end)
}

/// `{b,"c"}`
fn pair(alloc: Global) -> Result<Term, Fail> {
    let mut items = Vec::new(alloc);
    items.push(atom(alloc, "b")?)?;
    items.push(text(alloc, &[99])?)?;
    Ok(Term::tuple(alloc, items)??)
}

/// The literal term that the text is; if it is not one, the fault has to be at this line.
fn read(rt: &impl Abort, alloc: Global, bytes: &[u8], line: u32) -> Result<Option<Term>, Fail> {
    match scan(alloc, bytes)? {
        Ok(tokens) => match parse_term(alloc, &tokens)? {
            Ok(term) => Ok(Some(term)),
            Err(fault) => {
                assert_eq!(rt; fault.form, 1);
                assert_eq!(rt; fault.line, line);
                Ok(None)
            }
        },
        Err(_) => panic!(rt; "a text without tokens"),
    }
}

/// Whether the text is this term.
fn is(rt: &impl Abort, alloc: Global, bytes: &[u8], want: Term) -> Result<(), Fail> {
    match read(rt, alloc, bytes, 1)? {
        Some(term) => {
            assert!(rt; term.same(&want));
            Ok(())
        }
        None => panic!(rt; "no term"),
    }
}

#[test]
fn texts_are_their_terms(rt: HostRuntime) -> Result<(), Fail> {
    let alloc = rt.alloc();
    is(&rt, alloc, b"- 1", Term::int(-1))?;
    is(&rt, alloc, b"-16#ff", Term::int(-255))?;
    is(&rt, alloc, b"\"a\" \"b\"", text(alloc, &[97, 98])?)?;
    is(&rt, alloc, b"\"\"", Term::nil())?;
    is(
        &rt,
        alloc,
        b"[1|\"ab\"]",
        list(alloc, Term::int(1), text(alloc, &[97, 98])?)?,
    )?;
    is(
        &rt,
        alloc,
        b"[1|2]",
        list(alloc, Term::int(1), Term::int(2))?,
    )?;
    is(&rt, alloc, b"{}", Term::tuple(alloc, Vec::new(alloc))??)?;
    is(&rt, alloc, b"[]", Term::nil())?;
    is(&rt, alloc, b"a", atom(alloc, "a")?)?;
    is(&rt, alloc, b"'B c'", atom(alloc, "B c")?)?;
    is(&rt, alloc, b"$a", Term::int(97))?;
    is(&rt, alloc, b"[a,{b,\"c\"}|d]", parts(alloc)?)
}

#[test]
fn other_texts_are_no_terms(rt: HostRuntime) -> Result<(), Fail> {
    let alloc = rt.alloc();
    let rows: [(&[u8], u32); 15] = [
        (b"-$a", 1),
        (b"+1", 1),
        (b"- -1", 1),
        (b"[1].", 1),
        (b"(1)", 1),
        (b"\n\n_", 3),
        (b"1.0", 1),
        (b"", 1),
        (b"\n% none\n", 1),
        (b"[1|2|3]", 1),
        (b"[|1]", 1),
        (b"\n{1,}", 2),
        (b"X", 1),
        (b"[1", 1),
        (b"1 2", 1),
    ];
    for (bytes, line) in rows {
        let got = read(&rt, alloc, bytes, line)?;
        assert!(rt; got.is_none());
    }
    Ok(())
}

#[test]
fn the_deepest_terms_are_read(rt: HostRuntime) -> Result<(), Fail> {
    let alloc = rt.alloc();
    let rows: [(&[u8], &[u8], &[u8], usize, bool); 11] = [
        (b"{", b"a", b"}", 4_000, true),
        (b"{", b"a", b"}", 4_001, false),
        (b"{", b"{}", b"}", 4_000, false),
        (b"[", b"[]", b"]", 4_000, true),
        (b"[", b"[]", b"]", 4_001, false),
        (b"[a|", b"a", b"]", 4_000, true),
        (b"[a|", b"a", b"]", 4_001, false),
        (b"[a|", b"a", b"]", 20_000, false),
        (b"[a,", b"a", b"]", 2_000, true),
        (b"[", b"", b"", 999_999, false),
        (b"{[a|", b"a", b"]}", 100_000, false),
    ];
    for (front, middle, end, times, want) in rows {
        let bytes = nested(alloc, front, middle, end, times)?;
        let got = read(&rt, alloc, bytes.as_slice(), 1)?;
        assert_eq!(rt; got.is_some(), want);
    }
    Ok(())
}

#[test]
fn the_longest_lists_are_read(rt: HostRuntime) -> Result<(), Fail> {
    let alloc = rt.alloc();
    let rows: [(&[u8], &[u8], &[u8], usize, bool); 9] = [
        (b"\"", b"a", b"\"", 4_000, true),
        (b"\"", b"a", b"\"", 4_001, false),
        (b"\"", b"a", b"\"", 999_998, false),
        (b"[a", b",a", b"]", 3_999, true),
        (b"[a", b",a", b"]", 4_000, false),
        (b"[a", b",a", b"]", 499_998, false),
        (b"[a", b",a", b"|[b]]", 3_998, true),
        (b"[a", b",a", b"|[b]]", 3_999, false),
        (b"{a", b",a", b"}", 99_998, true),
    ];
    for (front, middle, end, times, want) in rows {
        let bytes = repeated(alloc, front, middle, end, times)?;
        let got = read(&rt, alloc, bytes.as_slice(), 1)?;
        assert_eq!(rt; got.is_some(), want);
    }
    Ok(())
}

// The most brackets around elements, in the innermost the most elements, and the last of them the highest: the whole
// is refused, and takes the most stack.
#[test]
fn high_lists_in_deep_brackets_are_refused(rt: HostRuntime) -> Result<(), Fail> {
    let alloc = rt.alloc();
    let text = repeated(alloc, b"\"", b"a", b"\"", 4_000)?;
    let list = repeated(alloc, b"a", b",a", b",", 3_998)?;
    let rows: [(&[u8], &[u8]); 2] = [(b"[", b"]"), (b"{", b"}")];
    for (front, end) in rows {
        let mut inner = list.clone()?;
        inner.extend_from_slice(text.as_slice())?;
        let mut middle = Vec::from_slice(alloc, b"[")?;
        middle.extend_from_slice(inner.as_slice())?;
        middle.extend_from_slice(b"]")?;
        let bytes = nested(alloc, front, middle.as_slice(), end, 3_999)?;
        let got = read(&rt, alloc, bytes.as_slice(), 1)?;
        assert!(rt; got.is_none());
    }
    Ok(())
}
