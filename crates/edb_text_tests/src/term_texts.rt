//! Texts of terms, worked out by hand.

use edb_lang::{Name, Term};
use edb_text::{put_atom, put_quoted, put_term, term_text};
use std::alloc::{AllocError, Global};
use std::test::Fail;

/// An atom.
fn atom(alloc: Global, name: &str) -> Result<Term, AllocError> {
    Ok(Term::atom(Name::from_str(alloc, name)?))
}

/// Whether a term has this text.
fn shows(alloc: Global, term: &Term, text: &[u8]) -> Result<bool, AllocError> {
    let shown = term_text(alloc, term)?;
    Ok(shown.as_slice() == text)
}

/// Whether bytes have this text between double quotes.
fn shows_quoted(alloc: Global, bytes: &[u8], text: &[u8]) -> Result<bool, AllocError> {
    let mut out = Vec::new(alloc);
    put_quoted(&mut out, b'"', bytes)?;
    Ok(out.as_slice() == text)
}

/// Whether an atom has this text.
fn shows_atom(alloc: Global, name: &str, text: &[u8]) -> Result<bool, AllocError> {
    let mut out = Vec::new(alloc);
    put_atom(&mut out, name.as_bytes())?;
    Ok(out.as_slice() == text)
}

#[test]
fn terms_have_their_texts(rt: HostRuntime) -> Result<(), Fail> {
    let alloc = rt.alloc();
    assert!(rt; shows(alloc, &Term::int(-7), b"-7")?);
    assert!(rt; shows(alloc, &Term::pid(3), b"<3>")?);
    assert!(rt; shows(alloc, &Term::reference(4), b"#Ref<4>")?);
    assert!(rt; shows(alloc, &Term::nil(), b"[]")?);
    assert!(rt; shows(alloc, &atom(alloc, "ok")?, b"ok")?);
    let mut out = Vec::new(alloc);
    put_term(&mut out, alloc, &Term::int(5), true, true)?;
    assert!(rt; out.as_slice() == b"|5]".as_slice());
    assert!(rt; shows_atom(alloc, "a_B@1", b"a_B@1")?);
    assert!(rt; shows_atom(alloc, "xor", b"'xor'")?);
    assert!(rt; shows_atom(alloc, "it's\n", b"'it\\'s\\n'")?);
    assert!(rt; shows_atom(alloc, "\u{1}", b"'\\x01'")?);
    assert!(rt; shows_atom(alloc, "", b"''")?);
    assert!(rt;
        shows_quoted(
            alloc,
            b"it's \"it\"\\\x7f\xc3",
            b"\"it's \\\"it\\\"\\\\\\d\xc3\""
        )?
    );
    Ok(())
}
