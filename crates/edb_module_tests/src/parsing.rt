//! Texts, and whether they are modules.

use crate::texts::{nested, repeated};
use edb_parse::parse;
use edb_scan::scan;
use std::alloc::Global;
use std::process::Abort;
use std::test::Fail;

const SHOP: &[u8] =
    b"-module(shop).\n-export([main/0]).\nmain() ->\n    X = sum(2, 3),\n    erlang:display(X).\nsum(A, B) ->\n    C = A + B,\n    C.\n";

/// The first four lines of that module, of which the last function is cut short.
const CUT: &[u8] = b"-module(shop).\n-export([main/0]).\nmain() ->\n    X = sum(2, 3),\n";

/// A module with processes.
const TILL: &[u8] =
    b"-module(till).\n-export([main/0, till/1]).\n-spec main() -> ok.\nmain() ->\n    process_flag(trap_exit, true),\n    Tills = [spawn_link(till, till, [N]) || N <- [1, 2, 3]],\n    Sums = [ask(T, {sell, 10}) || T <- Tills],\n    io:format(\"sums ~p~n\", [Sums]),\n    [_, Bad, _] = Tills,\n    Bad ! {sell, none},\n    receive\n        {'EXIT', Bad, {Why, _}} ->\n            io:format(\"till 2 ended: ~p~n\", [Why])\n    end,\n    New = spawn_link(till, till, [2]),\n    Again = ask(New, {sell, 5}),\n    io:format(\"again ~p~n\", [Again]),\n    ok.\nask(Till, {sell, Price}) ->\n    Till ! {sell, Price, self()},\n    receive\n        {sold, Till, Sum} ->\n            Sum\n    after 5000 ->\n        timeout\n    end.\ntill(Number) ->\n    serve(Number, 0).\nserve(Number, Sum) ->\n    receive\n        {sell, Price, From} when is_integer(Price) ->\n            New = Sum + Number * Price,\n            From ! {sold, self(), New},\n            serve(Number, New);\n        {sell, _} ->\n            error(bad_price);\n        stop ->\n            ok\n    end.\n";

/// The number and the line of the first form that the grammar refuses; nothing if the text is a module.
fn first_fault(rt: &impl Abort, alloc: Global, bytes: &[u8]) -> Result<Option<(u64, u32)>, Fail> {
    match scan(alloc, bytes)? {
        Ok(tokens) => match parse(alloc, &tokens)? {
            Ok(_) => Ok(None),
            Err(fault) => Ok(Some((fault.form, fault.line))),
        },
        Err(_) => panic!(rt; "a text without tokens"),
    }
}

/// Whether the text is a module; if not, the fault has to be at this form and this line.
fn is_module(
    rt: &impl Abort,
    alloc: Global,
    bytes: &[u8],
    form: u64,
    line: u32,
) -> Result<bool, Fail> {
    match first_fault(rt, alloc, bytes)? {
        None => Ok(true),
        Some((found, place)) => {
            assert_eq!(rt; found, form);
            assert_eq!(rt; place, line);
            Ok(false)
        }
    }
}

/// Whether this text between these two is a function, the second form of its module.
fn is_function(
    rt: &impl Abort,
    alloc: Global,
    before: &[u8],
    text: &[u8],
    after: &[u8],
) -> Result<bool, Fail> {
    let mut bytes = Vec::from_slice(alloc, b"-module(a).\n")?;
    bytes.extend_from_slice(before)?;
    bytes.extend_from_slice(text)?;
    bytes.extend_from_slice(after)?;
    is_module(rt, alloc, bytes.as_slice(), 2, 2)
}

#[test]
fn texts_of_modules_are_read(rt: HostRuntime) -> Result<(), Fail> {
    let alloc = rt.alloc();
    let rows: [&[u8]; 11] = [
        SHOP,
        TILL,
        b"-module(a).",
        b"-module('a b').",
        b"-module(a).\n-export([]).\n-export([f/0, g/255]).",
        b"-module(a).\n-author(me).",
        b"-module(a).\n-spec f(integer()) -> ok.",
        b"-module(a).\n-vsn(\"1\").",
        b"-module(a).\n-vsn.",
        b"-module(a).\nf(0) -> 1;\nf(1) -> 2.",
        b"-module(a).\nf(X, [Y]) when X; Y, X -> X, Y.\nf() -> ok.",
    ];
    for bytes in rows {
        let got = is_module(&rt, alloc, bytes, 0, 0)?;
        assert!(rt; got);
    }
    Ok(())
}

#[test]
fn the_first_form_that_is_refused_is_named(rt: HostRuntime) -> Result<(), Fail> {
    let alloc = rt.alloc();
    let rows: [(&[u8], u64, u32); 19] = [
        (b"", 1, 1),
        (b"\n% none\n", 1, 1),
        (b"\n.", 1, 2),
        (b"-module(a)", 1, 1),
        (b"-module(a, b).", 1, 1),
        (b"-export([f/0]).\n-module(a).", 1, 1),
        (b"-author(me).\n-module(a).", 1, 1),
        (b"-module(a).\n-module(a).", 2, 2),
        (b"-module(a).\n-define(X, 1).", 2, 2),
        (b"-module(a).\n-record(r, {a}).", 2, 2),
        (b"-module(a).\n-export([f/256]).", 2, 2),
        (b"-module(a).\n-vsn(\"1\")", 2, 2),
        (b"-module(a).\nf() -> g(1)(2).", 2, 2),
        (CUT, 3, 3),
        (b"-module(a).\nf(0) -> 1;\ng(1) -> 2.", 2, 2),
        (b"-module(a).\nf(0) -> 1;\nf(1, 2) -> 2.", 2, 2),
        (b"-module(a).\nF() -> 1.", 2, 2),
        (b"-module(a).\n-export([f/0]).\n\nf() -> 1", 3, 4),
        (b"-module(a).\nf() -> 1.\n\ng() -> .\nh() -> .", 3, 4),
    ];
    for (bytes, form, line) in rows {
        let got = is_module(&rt, alloc, bytes, form, line)?;
        assert!(rt; !got);
    }
    Ok(())
}

#[test]
fn bodies_are_read(rt: HostRuntime) -> Result<(), Fail> {
    let alloc = rt.alloc();
    let rows: [&[u8]; 42] = [
        b"1 - 2 - 3",
        b"a < b",
        b"a ++ b -- c ++ d",
        b"- - not bnot + X",
        b"1 + - 2",
        b"A andalso B andalso C orelse D",
        b"A = B = C",
        b"{A, [_ | B]} = -1 = C",
        b"X = catch f()",
        b"P ! catch f()",
        b"P ! X = 1",
        b"[catch f(), 1]",
        b"f(catch g())",
        b"try f() catch _ -> 1 end",
        b"try f() after 1 end",
        b"try f() catch _ -> 1 after 2 end",
        b"try f() of X -> X catch _ -> 1 end",
        b"try f() of X -> X after 1 end",
        b"try f() of X -> X catch _ -> 1 after 2 end",
        b"try f() catch error:R:S when R == S -> S; K:_ -> K; R -> R end",
        b"receive after 0 -> ok end",
        b"receive X -> X end",
        b"receive X when X -> X; _ -> 1 after 1 -> 2 end",
        b"case X of 1 when X; Y, Z -> 2, 3; _ -> 4 end",
        b"if X -> 1; Y, Z; true -> 2 end",
        b"begin 1, 2 end",
        b"fun f/1",
        b"fun f/255",
        b"fun m:f/1",
        b"fun () -> 1 end",
        b"fun (X) -> X end",
        b"fun (X) -> X; (Y) when Y -> Y end",
        b"[X || X <- L]",
        b"[X || {X, -1} <- L, X < Y, Z <- [X | Y]]",
        b"[1, 2 | [3]]",
        b"{[], {}, {a, $b, 1.5, 16#ff}}",
        b"m:f(1)",
        b"M:F(1)",
        b"(X):(Y)(1)",
        b"F()",
        b"(f(1))(2)",
        b"\"a\" \"b\"",
    ];
    for body in rows {
        let got = is_function(&rt, alloc, b"f() -> ", body, b".")?;
        assert!(rt; got);
    }
    Ok(())
}

#[test]
fn other_bodies_are_refused(rt: HostRuntime) -> Result<(), Fail> {
    let alloc = rt.alloc();
    let rows: [&[u8]; 28] = [
        b"a < b < c",
        b"a == b =:= c",
        b"(X) = 1",
        b"f() = 1",
        b"X = 1 + Y = 2",
        b"1 + catch f()",
        b"try f() end",
        b"try f() of X -> X end",
        b"receive end",
        b"case X of end",
        b"if end",
        b"begin end",
        b"fun f/256",
        b"fun F/1",
        b"fun m:F/1",
        b"fun (X) -> X",
        b"fun (X) -> X; (Y, Z) -> Y end",
        b"[X || ]",
        b"[1, 2 || X <- L]",
        b"[1|2|3]",
        b"[|1]",
        b"{1,}",
        b"m:f",
        b"m:n:f(1)",
        b"g(1)(2)",
        b"1 2",
        b"1 +",
        b"_ -> 1",
    ];
    for body in rows {
        let got = is_function(&rt, alloc, b"f() -> ", body, b".")?;
        assert!(rt; !got);
    }
    Ok(())
}

#[test]
fn the_deepest_bodies_are_read(rt: HostRuntime) -> Result<(), Fail> {
    let alloc = rt.alloc();
    let rows: [(&[u8], &[u8], &[u8], usize, bool); 22] = [
        (b"{", b"", b"}", 200, true),
        (b"{", b"", b"}", 201, false),
        (b"[", b"", b"]", 200, true),
        (b"[", b"", b"]", 201, false),
        (b"[a|", b"a", b"]", 199, true),
        (b"[a|", b"a", b"]", 200, false),
        (b"- ", b"a", b"", 199, true),
        (b"- ", b"a", b"", 200, false),
        (b"begin ", b"a", b" end", 199, true),
        (b"begin ", b"a", b" end", 200, false),
        (b"f(", b"", b")", 199, true),
        (b"f(", b"", b")", 200, false),
        (b"A = ", b"a", b"", 199, true),
        (b"A = ", b"a", b"", 200, false),
        (b"", b"a", b" + a", 199, true),
        (b"", b"a", b" + a", 200, false),
        (b"a ++ ", b"a", b"", 199, true),
        (b"a ++ ", b"a", b"", 200, false),
        (b"fun () -> ", b"a", b" end", 199, true),
        (b"fun () -> ", b"a", b" end", 200, false),
        (b"[a || ", b"a", b"]", 199, true),
        (b"[a || ", b"a", b"]", 200, false),
    ];
    for (front, middle, end, times, want) in rows {
        let body = nested(alloc, front, middle, end, times)?;
        let got = is_function(&rt, alloc, b"f() -> ", body.as_slice(), b".")?;
        assert_eq!(rt; got, want);
    }
    Ok(())
}

#[test]
fn the_deepest_patterns_are_read(rt: HostRuntime) -> Result<(), Fail> {
    let alloc = rt.alloc();
    let rows: [(&[u8], &[u8], &[u8], usize, bool); 8] = [
        (b"{", b"", b"}", 200, true),
        (b"{", b"", b"}", 201, false),
        (b"[", b"a", b"]", 199, true),
        (b"[", b"a", b"]", 200, false),
        (b"[a|", b"a", b"]", 199, true),
        (b"[a|", b"a", b"]", 200, false),
        (b"A = ", b"a", b"", 199, true),
        (b"A = ", b"a", b"", 200, false),
    ];
    for (front, middle, end, times, want) in rows {
        let pattern = nested(alloc, front, middle, end, times)?;
        let got = is_function(&rt, alloc, b"f(", pattern.as_slice(), b") -> ok.")?;
        assert_eq!(rt; got, want);
    }
    Ok(())
}

// Parentheses add no level, and those of a call and of the head of a fun are counted too.
#[test]
fn so_many_round_brackets_may_be_open(rt: HostRuntime) -> Result<(), Fail> {
    let alloc = rt.alloc();
    let rows: [(&[u8], &[u8], &[u8], usize, bool); 6] = [
        (b"(", b"a", b")", 500, true),
        (b"(", b"a", b")", 501, false),
        (b"(", b"f()", b")", 499, true),
        (b"(", b"f()", b")", 500, false),
        (b"(", b"fun () -> a end", b")", 499, true),
        (b"(", b"fun () -> a end", b")", 500, false),
    ];
    for (front, middle, end, times, want) in rows {
        let body = nested(alloc, front, middle, end, times)?;
        let got = is_function(&rt, alloc, b"f() -> ", body.as_slice(), b".")?;
        assert_eq!(rt; got, want);
    }
    Ok(())
}

// As many parentheses as may be open around as many levels as there may be: the whole takes the most stack.
#[test]
fn deep_bodies_in_parentheses_are_read(rt: HostRuntime) -> Result<(), Fail> {
    let alloc = rt.alloc();
    let rows: [(usize, bool); 2] = [(500, true), (501, false)];
    let inner = nested(alloc, b"try a catch b -> ", b"c", b" end", 199)?;
    for (times, want) in rows {
        let body = nested(alloc, b"(", inner.as_slice(), b")", times)?;
        let got = is_function(&rt, alloc, b"f() -> ", body.as_slice(), b".")?;
        assert_eq!(rt; got, want);
    }
    Ok(())
}

#[test]
fn the_longest_heads_are_read(rt: HostRuntime) -> Result<(), Fail> {
    let alloc = rt.alloc();
    let rows: [(&[u8], &[u8], &[u8], usize, bool); 7] = [
        (b"f(_", b", _", b") -> a.", 254, true),
        (b"f(_", b", _", b") -> a.", 255, false),
        (b"f() -> fun (_", b", _", b") -> a end.", 254, true),
        (b"f() -> fun (_", b", _", b") -> a end.", 255, false),
        (b"-vsn", b"(", b").", 500, true),
        (b"-vsn", b"(", b").", 501, false),
        (b"-vsn", b"()", b".", 501, true),
    ];
    for (front, middle, end, times, want) in rows {
        let form = repeated(alloc, front, middle, end, times)?;
        let got = is_function(&rt, alloc, b"", form.as_slice(), b"")?;
        assert_eq!(rt; got, want);
    }
    Ok(())
}

// A text that is cut short is a module if its last form still has its dot, and else is refused.
#[test]
fn texts_cut_short_are_modules_after_a_dot(rt: HostRuntime) -> Result<(), Fail> {
    let alloc = rt.alloc();
    let mut bytes = Vec::new(alloc);
    let mut is_closed = false;
    for byte in SHOP {
        bytes.push(*byte)?;
        is_closed = *byte == b'.' || (is_closed && *byte == b'\n');
        let got = first_fault(&rt, alloc, bytes.as_slice())?;
        assert_eq!(rt; got.is_none(), is_closed);
    }
    Ok(())
}
