//! Texts of modules, with the layouts that they have or the forms that are none, and with the checker's verdicts.

use edb_check::CheckKind;
use edb_lang::Bytes;
use edb_parse::parse;
use edb_print::module_text;
use edb_scan::scan;
use edb_verdict::{ModuleFault, verdict};
use std::alloc::{AllocError, Global};
use std::process::Abort;
use std::test::Fail;

/// The front, the middle and the end, one after another.
fn joined(alloc: Global, front: &[u8], middle: &[u8], end: &[u8]) -> Result<Bytes, AllocError> {
    let mut text = Bytes::from_slice(alloc, front)?;
    text.extend(middle)?;
    text.extend(end)?;
    Ok(text)
}

/// The layout of the text's module, whether the checker accepts it or not; none where a form is none.
fn layout(alloc: Global, text: &[u8]) -> Result<Option<Bytes>, AllocError> {
    match scan(alloc, text)? {
        Ok(tokens) => match parse(alloc, &tokens)? {
            Ok(module) => Ok(Some(module_text(alloc, &module)?)),
            Err(_) => Ok(None),
        },
        Err(_) => Ok(None),
    }
}

/// Whether the text has this layout, which is its own layout.
fn has_layout(alloc: Global, text: &[u8], wanted: &[u8]) -> Result<bool, AllocError> {
    let Some(first) = layout(alloc, text)? else {
        return Ok(false);
    };
    let Some(second) = layout(alloc, first.as_slice())? else {
        return Ok(false);
    };
    Ok(first.as_slice() == wanted && second.as_slice() == wanted)
}

/// An expression, and how it is laid out on one line: each operand that is an operator, a match, a send or a catch is
/// in parentheses there, so that this is its tree.
const EXPRESSIONS: [(&[u8], &[u8]); 55] = [
    (b"- - 1", b"-(-1)"),
    (b"not not a", b"not (not a)"),
    (b"+ bnot 1", b"+(bnot 1)"),
    (b"- 1 + 2", b"(-1) + 2"),
    (b"not a and b", b"(not a) and b"),
    (b"a / b * c", b"(a / b) * c"),
    (
        b"a div b rem c band d and e",
        b"(((a div b) rem c) band d) and e",
    ),
    (b"1 + 2 - 3", b"(1 + 2) - 3"),
    (b"1 - 2 + 3", b"(1 - 2) + 3"),
    (
        b"a bor b bxor c bsl d bsr e",
        b"(((a bor b) bxor c) bsl d) bsr e",
    ),
    (b"a or b xor c", b"(a or b) xor c"),
    (b"1 + 2 * 3", b"1 + (2 * 3)"),
    (b"1 * 2 + 3", b"(1 * 2) + 3"),
    (b"(1 + 2) * 3", b"(1 + 2) * 3"),
    (b"1 - (2 - 3)", b"1 - (2 - 3)"),
    (b"a ++ b -- c ++ d", b"a ++ (b -- (c ++ d))"),
    (b"1 + 2 ++ 3 - 4", b"(1 + 2) ++ (3 - 4)"),
    (b"(a ++ b) ++ c", b"(a ++ b) ++ c"),
    (b"a == b ++ c", b"a == (b ++ c)"),
    (b"a /= b + 1", b"a /= (b + 1)"),
    (b"a =< b andalso c < d", b"(a =< b) andalso (c < d)"),
    (b"a >= b orelse c > d", b"(a >= b) orelse (c > d)"),
    (b"(a =:= b) =/= c", b"(a =:= b) =/= c"),
    (b"a andalso b andalso c", b"a andalso (b andalso c)"),
    (b"a orelse b orelse c", b"a orelse (b orelse c)"),
    (
        b"a orelse b andalso c orelse d",
        b"a orelse ((b andalso c) orelse d)",
    ),
    (b"a andalso b orelse c", b"(a andalso b) orelse c"),
    (b"P = Q = 1", b"P = Q = 1"),
    (b"P = 1 + 2", b"P = 1 + 2"),
    (
        b"{P, -1} = {[H | T], $a, \"s\"} = x",
        b"{P, -1} = {[H | T], 97, \"s\"} = x",
    ),
    (b"a ! b ! c", b"a ! (b ! c)"),
    (b"a ! P = 1", b"a ! (P = 1)"),
    (b"P = a ! b", b"P = a ! b"),
    (b"a ! b orelse c", b"a ! (b orelse c)"),
    (b"P = catch a", b"P = catch a"),
    (b"a ! catch b ! c", b"a ! (catch (b ! c))"),
    (b"catch a + b", b"catch (a + b)"),
    (b"catch catch a", b"catch (catch a)"),
    (b"catch P = 1", b"catch (P = 1)"),
    (
        b"{catch a, [catch b | catch c], f(catch d)}",
        b"{catch a, [catch b | catch c], f(catch d)}",
    ),
    (b"f ( a , $b , \"c\" \"d\" )", b"f(a, 98, \"cd\")"),
    (b"m:f(1)", b"m:f(1)"),
    (b"M:F(X)", b"M:F(X)"),
    (b"F(1)", b"F(1)"),
    (b"(f)(1)", b"f(1)"),
    (b"(f(1))(2)", b"(f(1))(2)"),
    (b"(a + b):(c(d))()", b"(a + b):(c(d))()"),
    (b"{}:[]()", b"{}:[]()"),
    (b"-f(1)", b"-f(1)"),
    (b"fun f/2", b"fun f/2"),
    (b"fun 'A b' : 'case' / 16#f", b"fun 'A b':'case'/15"),
    (b"[E || E <- L]", b"[E || E <- L]"),
    (
        b"[{E, F} || {E, _} <- L, E > 1, F <- [E]]",
        b"[{E, F} || {E, _} <- L, E > 1, F <- [E]]",
    ),
    (b"[1, [], {} | [2 | _]]", b"[1, [], {} | [2 | _]]"),
    (b"\"a\\\"\\x01\\s\"", b"\"a\\\"\\x01 \""),
];

#[test]
fn expressions_have_their_trees(rt: HostRuntime) -> Result<(), Fail> {
    let alloc = rt.alloc();
    for (place, (expression, wanted)) in EXPRESSIONS.iter().enumerate() {
        let text = joined(alloc, b"-module(a).\nf() -> ", expression, b".")?;
        let wanted = joined(alloc, b"-module(a).\nf() ->\n    ", wanted, b".\n")?;
        assert!(rt;
            has_layout(alloc, text.as_slice(), wanted.as_slice())?,
            "expression {place}"
        );
    }
    Ok(())
}

/// Forms after the module line, and their layout.
const FORMS: [(&[u8], &[u8]); 16] = [
    (
        b"-export([f/1]). -vsn(\"1\"). -export([]). -export([g/0]).",
        b"\n-export([f/1, g/0]).\n",
    ),
    (b"-spec f(integer()) -> ok. -on_load. % none", b"\n"),
    (
        b"f(0) -> a; f(N) when N > 0, N < 9; N =:= b -> N, c.",
        b"\nf(0) ->\n    a;\nf(N) when N > 0, N < 9; N =:= b ->\n    N,\n    c.\n",
    ),
    (
        b"f() -> begin a, b end.",
        b"\nf() ->\n    begin\n        a,\n        b\n    end.\n",
    ),
    (
        b"f(X) -> case X of 1 -> a; [Y] when Y -> b, c end.",
        b"\nf(X) ->\n    case X of\n        1 ->\n            a;\n        [Y] when Y ->\n            b,\n            c\n    end.\n",
    ),
    (
        b"f(X) -> {case X of _ -> case X of _ -> a end end}.",
        b"\nf(X) ->\n    {case X of\n        _ ->\n            case X of\n                _ ->\n                    a\n            end\n    end}.\n",
    ),
    (
        b"f(X) -> if X -> a; true, X; false -> b end.",
        b"\nf(X) ->\n    if\n        X ->\n            a;\n        true, X; false ->\n            b\n    end.\n",
    ),
    (
        b"f() -> receive a -> b; {c, X} when X -> d end.",
        b"\nf() ->\n    receive\n        a ->\n            b;\n        {c, X} when X ->\n            d\n    end.\n",
    ),
    (
        b"f() -> receive a -> receive after 0 -> b end after 9 -> c, d end.",
        b"\nf() ->\n    receive\n        a ->\n            receive\n            after 0 ->\n                b\n            end\n    after 9 ->\n        c,\n        d\n    end.\n",
    ),
    (
        b"f() -> try a, b of X -> X catch throw:T -> T; error:E:S when E -> S; C:_ -> C after d end.",
        b"\nf() ->\n    try\n        a,\n        b\n    of\n        X ->\n            X\n    catch\n        throw:T ->\n            T;\n        error:E:S when E ->\n            S;\n        C:_ ->\n            C\n    after\n        d\n    end.\n",
    ),
    (
        b"f() -> try a catch T -> T end.",
        b"\nf() ->\n    try\n        a\n    catch\n        throw:T ->\n            T\n    end.\n",
    ),
    (
        b"f() -> try a after b end.",
        b"\nf() ->\n    try\n        a\n    after\n        b\n    end.\n",
    ),
    (
        b"f() -> fun() -> a end.",
        b"\nf() ->\n    fun() ->\n        a\n    end.\n",
    ),
    (
        b"f() -> g(fun (X) when X -> a; (_) -> b, c end).",
        b"\nf() ->\n    g(fun(X) when X ->\n        a;\n        (_) ->\n            b,\n            c\n    end).\n",
    ),
    (
        b"f() -> [begin a, b end || _ <- c].",
        b"\nf() ->\n    [begin\n        a,\n        b\n    end || _ <- c].\n",
    ),
    (
        b"f(P = Q, _, -1) -> P. g() -> f(1, 2, 3).",
        b"\nf(P = Q, _, -1) ->\n    P.\ng() ->\n    f(1, 2, 3).\n",
    ),
];

#[test]
fn forms_have_their_layout(rt: HostRuntime) -> Result<(), Fail> {
    let alloc = rt.alloc();
    for (place, (forms, wanted)) in FORMS.iter().enumerate() {
        let text = joined(alloc, b"-module(a).\n", forms, b"")?;
        let wanted = joined(alloc, b"-module(a).", wanted, b"")?;
        assert!(rt;
            has_layout(alloc, text.as_slice(), wanted.as_slice())?,
            "form {place}"
        );
    }
    Ok(())
}

/// A shop whose layout is its text.
pub(crate) const SHOP: &[u8] =
    b"-module(shop).\n-export([main/0]).\nmain() ->\n    X = sum(2, 3),\n    erlang:display(X).\nsum(A, B) ->\n    C = A + B,\n    C.\n";

/// A program that answers its callers, laid out otherwise than here.
const TILL: &[u8] = b"-module(till). % a till
-export([main/0, till/1]).
-spec main() -> ok.
main() ->
    process_flag(trap_exit, true), Tills = [spawn_link(till, till, [N]) || N <- [1, 2, 3]],
    [_, Bad | _] = Tills,
    Bad ! {sell, none},
    receive {'EXIT', Bad, {Why, _}} -> io:format(\"ended: ~p~n\", [Why]) end,
    ok.
till(Number) -> serve(Number, 0).
serve(Number, Sum) ->
    receive
        {sell, Price, From} when is_integer(Price) -> New = Sum + Number * Price,
            From ! {sold, self(), New}, serve(Number, New);
        {sell, _} -> exit(bad)
    after 5000 -> timeout end.
";

/// How many lines with stop points the layout of an accepted text has; none for a text that is refused, also once it
/// is laid out.
fn stops_laid_out(alloc: Global, text: &[u8]) -> Result<Option<usize>, AllocError> {
    match verdict(alloc, text)? {
        Ok(checked) => {
            let out = module_text(alloc, checked.module())?;
            match verdict(alloc, out.as_slice())? {
                Ok(again) => Ok(Some(again.lines(alloc)?.len())),
                Err(_) => Ok(None),
            }
        }
        Err(_) => Ok(None),
    }
}

#[test]
fn layouts_are_accepted_again(rt: HostRuntime) -> Result<(), Fail> {
    let alloc = rt.alloc();
    // Each text with the number of expressions that stand in bodies of it.
    let rows: [(&[u8], usize); 4] = [
        (SHOP, 4),
        (TILL, 14),
        (
            b"-module(a). -export([f/1]). f(X) -> case X of 1 -> a, b; _ -> c end, begin d, e end.",
            7,
        ),
        (
            b"-module(a). -export([f/0]). f() -> F = fun(Y) -> Y, fun() -> a end end, try F(1), b catch _ -> c after d, e end.",
            10,
        ),
    ];
    for (place, (text, stops)) in rows.iter().enumerate() {
        assert!(rt;
            stops_laid_out(alloc, text)? == Some(*stops),
            "text {place}"
        );
    }
    Ok(())
}

/// A function's body, and the line and the kind of its first fault; what stands before it is on lines 1 and 2.
const CHECKS: [(&[u8], Option<(u32, CheckKind)>); 35] = [
    (b"f(A) ->\n A.", None),
    (b"f(A) ->\n A, B.", Some((4, CheckKind::Unbound))),
    (b"f(_) ->\n _.", Some((4, CheckKind::Unbound))),
    (
        b"f(A) ->\n case A of 1 -> B = 2; _ -> C = 3 end,\n B.",
        Some((5, CheckKind::Unsafe)),
    ),
    (
        b"f(A) ->\n case A of 1 -> B = 2; _ -> B = 3 end,\n B.",
        None,
    ),
    (
        b"f(A) ->\n case A of 1 -> B = 2; _ -> c end,\n B = 1.",
        Some((5, CheckKind::Unsafe)),
    ),
    (
        b"f(A) ->\n if A -> B = 2; true -> c end,\n B.",
        Some((5, CheckKind::Unsafe)),
    ),
    (b"f(_) ->\n receive {X, B} -> X; B -> c end,\n B.", None),
    (
        b"f(_) ->\n receive {X, B} -> X; B -> c end,\n X.",
        Some((5, CheckKind::Unsafe)),
    ),
    (
        b"f(_) ->\n receive B -> c after T = 1 -> T end,\n B.",
        Some((5, CheckKind::Unsafe)),
    ),
    (b"f(_) ->\n receive B -> c after T = 1 -> T end,\n T.", None),
    (
        b"f(_) ->\n try B = 1 of _ -> B catch _ -> c end,\n b.",
        None,
    ),
    (
        b"f(_) ->\n try B = 1 catch _ -> B end.",
        Some((4, CheckKind::Unsafe)),
    ),
    (
        b"f(_) ->\n try B = 1 after c end,\n B.",
        Some((5, CheckKind::Unsafe)),
    ),
    (
        b"f(_) ->\n try a catch C:R:S when C -> {C, R, S} end.",
        None,
    ),
    (b"f(_) ->\n catch B = 1,\n B.", Some((5, CheckKind::Unsafe))),
    (
        b"f(A) ->\n A andalso (B = A),\n B.",
        Some((5, CheckKind::Unsafe)),
    ),
    (b"f(A) ->\n (B = A) orelse a,\n B.", None),
    (
        b"f(_) ->\n F = fun(A) -> B = A, B end,\n B.",
        Some((5, CheckKind::Unbound)),
    ),
    (b"f(A) ->\n F = fun(A) -> A end,\n F(A).", None),
    (b"f(A) ->\n [B || B <- A, B > 1].", None),
    (
        b"f(A) ->\n [B || B <- A],\n B.",
        Some((5, CheckKind::Unbound)),
    ),
    (
        b"f(A) ->\n case A of 1 -> case A of 2 -> B = 1; 3 -> B = 2 end; _ -> B = 3 end,\n B.",
        None,
    ),
    (
        b"f(A) ->\n case A of 1 -> case A of 2 -> B = 1; 3 -> b end; _ -> B = 3 end,\n B.",
        Some((5, CheckKind::Unsafe)),
    ),
    (b"f(_) ->\n {X = 1, X}.", Some((4, CheckKind::Sibling))),
    (b"f(_) ->\n {X, X = 1}.", Some((4, CheckKind::Unbound))),
    (b"f(_) ->\n X = (X = 1).", None),
    (b"f(_) ->\n 1.5.", Some((4, CheckKind::Float))),
    (b"f(A) ->\n A / 2, B.", Some((4, CheckKind::Unbound))),
    (b"f(_) ->\n g().", Some((4, CheckKind::Undefined))),
    (b"f(_) ->\n self(), fun length/1.", None),
    (
        b"f(_) ->\n a.\nf(_) ->\n b.",
        Some((5, CheckKind::Duplicate)),
    ),
    (b"g(_) ->\n a.", Some((2, CheckKind::NotExported))),
    (
        b"f(A) when g(A) ->\n a.\ng(_) ->\n b.",
        Some((3, CheckKind::BadGuard)),
    ),
    (
        b"f(A) when length(A) > 1, A ++ [] ->\n a.\nlength(_) ->\n length(1).",
        Some((3, CheckKind::BadGuard)),
    ),
];

/// The checker's fault of a text, whose forms are forms.
fn check_fault(
    rt: &impl Abort,
    alloc: Global,
    text: &[u8],
) -> Result<Option<(u32, CheckKind)>, Fail> {
    match verdict(alloc, text)? {
        Ok(_) => Ok(None),
        Err(ModuleFault::Check(fault)) => Ok(Some((fault.line, fault.kind))),
        Err(_) => panic!(rt; "no module"),
    }
}

#[test]
fn first_faults_are_told(rt: HostRuntime) -> Result<(), Fail> {
    let alloc = rt.alloc();
    for (place, (function, wanted)) in CHECKS.iter().enumerate() {
        let text = joined(alloc, b"-module(a).\n-export([f/1]).\n", function, b"\n")?;
        assert!(rt;
            check_fault(&rt, alloc, text.as_slice())? == *wanted,
            "function {place}"
        );
    }
    Ok(())
}
