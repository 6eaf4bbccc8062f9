//! Texts, and whether each is a module of the language.

use edb_small::read_module;
use std::alloc::Global;
use std::test::Fail;

/// The lines of each function's expressions, functions parted by `;`, or that the text is refused.
fn shown(alloc: Global, bytes: &[u8]) -> Result<String, Fail> {
    let mut out = String::new(alloc);
    let Some(module) = read_module(alloc, bytes)? else {
        out.push_str("refused")?;
        return Ok(out);
    };
    write!(out, "{}:", module.name.as_str())?;
    for function in &module.functions {
        write!(out, " {}", function.first.line)?;
        for line in &function.rest {
            write!(out, " {}", line.line)?;
        }
        out.push_str(";")?;
    }
    Ok(out)
}

/// A module whose one line is `1` within so many calls.
fn nested(alloc: Global, calls: usize) -> Result<Vec<u8>, Fail> {
    let mut bytes = Vec::from_slice(alloc, b"-module(m).\n-export([f/1]).\nf(A) ->\n".as_slice())?;
    for _ in 0..calls {
        bytes.extend_from_slice(b"f(")?;
    }
    bytes.extend_from_slice(b"1")?;
    for _ in 0..calls {
        bytes.extend_from_slice(b")")?;
    }
    bytes.extend_from_slice(b".\n")?;
    Ok(bytes)
}

#[test]
fn texts_are_read_or_refused(rt: HostRuntime) -> Result<(), Fail> {
    let rows: [(&[u8], &str); 40] = [
        (
            b"-module(shop).\n-export([main/0]).\nmain() ->\n    X = sum(2, 3),\n    erlang:display(X).\nsum(A, B) ->\n    C = A + B,\n    C.\n",
            "shop: 4 5; 7 8;",
        ),
        // White space stands anywhere between tokens, or not at all; each kind of integer.
        (
            b" - module\t(\x0cm\r\n)\n.\n-\nexport([f\n/0 ] ) .\nf (\n) ->\n\n16#ff\n+ 1_000 .",
            "m: 10;",
        ),
        (
            b"-module(m).\n-export([f/0,f/1]).\nf()->f(1).\nf(A)->B=A+f(),B.\n",
            "m: 3; 4 4;",
        ),
        (
            b"-module(m).\n-export([f/0]).\nf() -> erlang:display(1) + erlang:display(f() + 2).",
            "m: 3;",
        ),
        (
            b"-module(m).\n-export([f/0]).\nf() -> erlang\n:\ndisplay\n(\n1\n).",
            "m: 3;",
        ),
        (b"", "refused"),
        (b"-module(m).\n-export([f/0]).\n", "refused"),
        (b"-module(m).\nf() -> 1.\n", "refused"),
        (b"-module(m).\n-export([]).\nf() -> 1.\n", "refused"),
        (
            b"-module(m).\n-export([f/0]).\n-export([f/0]).\nf() -> 1.\n",
            "refused",
        ),
        (b"-module(m).\n-export([f/0]).\nf() -> 1", "refused"),
        (b"-module(m).\n-export([f/0]).\nf() -> 1.\n1", "refused"),
        (b"-module(m).\n-export([f/0]).\nf() -> 1,.", "refused"),
        // Names of modules and functions.
        (b"-module(lists).\n-export([f/0]).\nf() -> 1.\n", "refused"),
        (b"-module(erlang).\n-export([f/0]).\nf() -> 1.\n", "refused"),
        (b"-module(io).\n-export([f/0]).\nf() -> 1.\n", "refused"),
        (b"-module(int).\n-export([f/0]).\nf() -> 1.\n", "refused"),
        (b"-module(list).\n-export([f/0]).\nf() -> 1.\n", "list: 3;"),
        (b"-module('m').\n-export([f/0]).\nf() -> 1.\n", "refused"),
        (b"-module(m).\n-export([g/0]).\nf() -> 1.\n", "refused"),
        (b"-module(m).\n-export([f/1]).\nf() -> 1.\n", "refused"),
        (
            b"-module(m).\n-export([f/4294967296]).\nf() -> 1.\n",
            "refused",
        ),
        (
            b"-module(m).\n-export([f/0]).\nf() -> 1.\nf() -> 2.\n",
            "refused",
        ),
        (b"-module(m).\n-export([f/0]).\nf() -> g().\n", "refused"),
        (b"-module(m).\n-export([f/0]).\nf() -> f(1).\n", "refused"),
        (b"-module(m).\n-export([f/0]).\nf() -> m:f().\n", "refused"),
        (
            b"-module(m).\n-export([f/0]).\nf() -> erlang:display(1, 2).\n",
            "refused",
        ),
        (
            b"-module(m).\n-export([f/0]).\nf() -> erlang:put(1).\n",
            "refused",
        ),
        // Variables.
        (b"-module(m).\n-export([f/0]).\nf() -> X.\n", "refused"),
        (b"-module(m).\n-export([f/0]).\nf() -> X = X.\n", "refused"),
        (
            b"-module(m).\n-export([f/0]).\nf() -> X = 1, X = 2, X.\n",
            "refused",
        ),
        (b"-module(m).\n-export([f/1]).\nf(X) -> X = 1.\n", "refused"),
        (b"-module(m).\n-export([f/2]).\nf(X, X) -> X.\n", "refused"),
        (b"-module(m).\n-export([f/1]).\nf(_X) -> 1.\n", "refused"),
        // Forms of the whole language that this one hasn't.
        (
            b"-module(m).\n-export([f/0]).\nf() -> 1 + 2 + 3.\n",
            "refused",
        ),
        (b"-module(m).\n-export([f/0]).\nf() -> $a.\n", "refused"),
        (b"-module(m).\n-export([f/0]).\nf() -> (1).\n", "refused"),
        (b"-module(m).\n-export([f/0]).\nf() -> -1.\n", "refused"),
        (b"-module(m).\n-export([f/0]).\nf() -> a.\n", "refused"),
        (
            b"-module(m). % name\n-export([f/0]).\nf() -> 1.\n",
            "refused",
        ),
    ];
    for (bytes, want) in rows {
        let got = shown(rt.alloc(), bytes)?;
        assert_eq!(rt; got.as_str(), want);
    }
    Ok(())
}

#[test]
fn depth_is_at_most_200(rt: HostRuntime) -> Result<(), Fail> {
    let alloc = rt.alloc();
    // The integer within the calls is one level more.
    for (calls, want) in [(199, "m: 4;"), (200, "refused"), (100_000, "refused")] {
        let bytes = nested(alloc, calls)?;
        let got = shown(alloc, bytes.as_slice())?;
        assert_eq!(rt; got.as_str(), want);
    }
    Ok(())
}
