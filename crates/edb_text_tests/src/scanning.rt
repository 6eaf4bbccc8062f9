//! Texts with their tokens, and texts with their faults.

use edb_scan::{Placed, Token, scan};
use std::alloc::Global;
use std::process::Abort;
use std::test::Fail;

/// Writes a token's line, its kind and its value.
fn show(out: &mut String, placed: &Placed) -> Result<(), Fail> {
    if !out.is_empty() {
        out.push_str(" ")?;
    }
    write!(out, "{}:", placed.line)?;
    match &placed.token {
        Token::Int(number) => write!(out, "{number}")?,
        Token::Float => out.push_str("float")?,
        Token::Char(point) => write!(out, "char {point}")?,
        Token::Atom(name) => write!(out, "atom {}", name.as_str())?,
        Token::Var(name) => write!(out, "var {}", name.as_str())?,
        Token::Str(text) => {
            out.push_str("str")?;
            for point in text.as_slice() {
                write!(out, " {point}")?;
            }
        }
        Token::Mark(mark) => write!(out, "{mark:?}")?,
        Token::Dot => out.push_str("dot")?,
    }
    Ok(())
}

/// A text's tokens, or where its fault lies.
fn shown(alloc: Global, bytes: &[u8]) -> Result<String, Fail> {
    let mut out = String::new(alloc);
    match scan(alloc, bytes)? {
        Ok(tokens) => {
            for placed in tokens.as_slice() {
                show(&mut out, placed)?;
            }
        }
        Err(fault) => write!(out, "fault {}", fault.at)?,
    }
    Ok(out)
}

/// A front, and then so many times the filling.
fn filled(alloc: Global, front: &[u8], filling: &[u8], times: usize) -> Result<Vec<u8>, Fail> {
    let mut bytes = Vec::from_slice(alloc, front)?;
    for _ in 0..times {
        bytes.extend_from_slice(filling)?;
    }
    Ok(bytes)
}

fn check(rt: &impl Abort, alloc: Global, bytes: &[u8], want: &str) -> Result<(), Fail> {
    let got = shown(alloc, bytes)?;
    assert_eq!(rt; got.as_str(), want);
    Ok(())
}

#[test]
fn texts_have_their_tokens(rt: HostRuntime) -> Result<(), Fail> {
    let rows: [(&[u8], &str); 57] = [
        // Each escape, after `$` and in a text.
        (
            b"$\\b $\\d $\\e $\\f $\\n $\\r $\\s $\\t $\\v $\\0",
            "1:char 8 1:char 127 1:char 27 1:char 12 1:char 10 1:char 13 1:char 32 1:char 9 1:char 11 1:char 0",
        ),
        (
            b"$\\\" $\\' $\\\\ $\\x4a $\\xfF",
            "1:char 34 1:char 39 1:char 92 1:char 74 1:char 255",
        ),
        (b"\"\\b\\x41\xc3\xa9\"", "1:str 8 65 233"),
        (b"'a\\'\\x42'", "1:atom a'B"),
        (b"x \"\\q\"", "fault 2"),
        (b"'\\q'", "fault 0"),
        (b"\"\\x4g\"", "fault 0"),
        // Each mark, beside those that it begins.
        (
            b"= == =:= =< => =/= /= >= > < <= << <-",
            "1:Match 1:Equal 1:ExactlyEqual 1:AtMost 1:MapsTo 1:ExactlyUnequal 1:Unequal 1:AtLeast 1:GreaterThan 1:LessThan 1:FromBinary 1:BinaryOpen 1:From",
        ),
        (b"===:==<", "1:Equal 1:ExactlyEqual 1:AtMost"),
        (
            b"... >> -> := ++ -- || :: ..x",
            "1:Ellipsis 1:BinaryClose 1:Arrow 1:Updates 1:PlusPlus 1:MinusMinus 1:BarBar 1:ColonColon 1:PointPoint 1:atom x",
        ),
        (
            b"( ) [ ] { } , ; : |",
            "1:ParenOpen 1:ParenClose 1:BracketOpen 1:BracketClose 1:BraceOpen 1:BraceClose 1:Comma 1:Semicolon 1:Colon 1:Bar",
        ),
        (
            b"# ? ! + - * / .x",
            "1:Hash 1:Question 1:Bang 1:Plus 1:Minus 1:Star 1:Slash 1:Point 1:atom x",
        ),
        (b"a @", "fault 2"),
        // Words, atoms and variables.
        (
            b"after and andalso band begin bnot bor bsl bsr bxor",
            "1:After 1:And 1:AndAlso 1:BitAnd 1:Begin 1:BitNot 1:BitOr 1:ShiftLeft 1:ShiftRight 1:BitXor",
        ),
        (
            b"case catch cond div else end fun if let maybe",
            "1:Case 1:Catch 1:Cond 1:Div 1:Else 1:End 1:Fun 1:If 1:Let 1:Maybe",
        ),
        (
            b"not of or orelse receive rem try when xor",
            "1:Not 1:Of 1:Or 1:OrElse 1:Receive 1:Rem 1:Try 1:When 1:Xor",
        ),
        (
            b"andy a@b_C9 _ _x Ab@1",
            "1:atom andy 1:atom a@b_C9 1:var _ 1:var _x 1:var Ab@1",
        ),
        (
            b"'if''\xc3\xa9\xe2\x86\x92' ''",
            "1:atom if 1:atom é→ 1:atom ",
        ),
        // Numbers.
        (
            b"1_000 1__0 12_ 16#ff 16#F_f 3_6#z",
            "1:1000 1:1 1:var __0 1:12 1:var _ 1:255 1:255 1:35",
        ),
        (
            b"37#1 2#19 1#0 7#",
            "1:37 1:Hash 1:1 1:1 1:9 1:1 1:Hash 1:0 1:7 1:Hash",
        ),
        (
            b"170141183460469231731687303715884105727",
            "1:170141183460469231731687303715884105727",
        ),
        (
            b"16#7fffffffffffffffffffffffffffffff",
            "1:170141183460469231731687303715884105727",
        ),
        (b"a 170141183460469231731687303715884105728", "fault 2"),
        (b"16#80000000000000000000000000000000", "fault 0"),
        (
            b"1.5e-3 1.5 1.5e3 1.5E+3 1_0.2_5",
            "1:float 1:float 1:float 1:float 1:float",
        ),
        (
            b"1.5e 1.e3 2.x 1..2 1.5.6 1.5e-",
            "1:float 1:atom e 1:1 1:Point 1:atom e3 1:2 1:Point 1:atom x 1:1 1:PointPoint 1:2 1:float 1:Point 1:6 1:float 1:atom e 1:Minus",
        ),
        // Characters and strings.
        (
            b"$  $'$\"$%$\xc3\xa9",
            "1:char 32 1:char 39 1:char 34 1:char 37 1:char 233",
        ),
        (b"x $\\q", "fault 2"),
        (b"x $", "fault 2"),
        (b"$\\x4", "fault 0"),
        (b"\"a\"\"b\"", "fault 3"),
        (b"\"a\" \"b\"", "1:str 97 1:str 98"),
        (b"\"a\"%c\n\"b\"", "1:str 97 2:str 98"),
        (b"\"\"'a\"b'\"'\"", "1:str 1:atom a\"b 1:str 39"),
        (b"x \"abc", "fault 2"),
        (b"x 'abc", "fault 2"),
        // Bytes that are no text.
        (b"a %\xff\nb", "fault 2"),
        (b"ab \"\xff\"", "fault 3"),
        (b"'\xc3' ", "fault 0"),
        (b"1 $\xff", "fault 2"),
        (b"a\xff", "fault 1"),
        (b"a \xc3\xa9", "fault 2"),
        (b"\"\xed\xa0\x80\"", "fault 0"),
        (b"\"\xc0\x80\"", "fault 0"),
        (b"\"\xe2\x82", "fault 0"),
        // Dots.
        (b"a.%c", "1:atom a 1:dot"),
        (b"a.", "1:atom a 1:dot"),
        (b"a.b", "1:atom a 1:Point 1:atom b"),
        (
            b"a.\nb.\tc.\x0c",
            "1:atom a 1:dot 2:atom b 2:dot 2:atom c 2:dot",
        ),
        (b".. ... ", "1:PointPoint 1:Ellipsis"),
        // Lines.
        (b"a\n\nb%c\nd", "1:atom a 3:atom b 4:atom d"),
        (b"\"\n\"b", "1:str 10 2:atom b"),
        (b"'\n'b", "1:atom \n 2:atom b"),
        (b"$\nb", "1:char 10 2:atom b"),
        (b"a\rb\x0cc", "1:atom a 1:atom b 1:atom c"),
        (b"$\\nb\"\\n\"c", "1:char 10 1:atom b 1:str 10 1:atom c"),
        (b"%c", ""),
    ];
    for (bytes, want) in rows {
        check(&rt, rt.alloc(), bytes, want)?;
    }
    Ok(())
}

#[test]
fn limits_hold(rt: HostRuntime) -> Result<(), Fail> {
    let alloc = rt.alloc();
    let rows: [(&[u8], &[u8], usize, &[u8], Option<u32>); 9] = [
        // An atom has at most 255 characters, however many bytes they take.
        (b"x a", b"a", 254, b"", None),
        (b"x a", b"a", 255, b"", Some(2)),
        (b"x '", b"\xc3\xa9", 255, b"'", None),
        (b"x '", b"\xc3\xa9", 256, b"'", Some(2)),
        // A variable has no limit.
        (b"x A", b"a", 1000, b"", None),
        // A file has at most 1,000,000 bytes.
        (b"", b" ", 1_000_000, b"", None),
        (b"", b" ", 1_000_000, b" ", Some(1_000_000)),
        (b" @", b" ", 1_000_000, b"", Some(1)),
        (b"  \"", b" ", 1_000_000, b"\" @", Some(1_000_000)),
    ];
    for (front, filling, times, back, want) in rows {
        let mut bytes = filled(alloc, front, filling, times)?;
        bytes.extend_from_slice(back)?;
        let at = match scan(alloc, bytes.as_slice())? {
            Ok(_) => None,
            Err(fault) => Some(fault.at),
        };
        assert_eq!(rt; at, want, "{times}");
    }
    Ok(())
}

#[test]
fn lists_have_lengths(rt: HostRuntime) -> Result<(), Fail> {
    match scan(rt.alloc(), b"x \"abc\"")? {
        Ok(tokens) => {
            assert_eq!(rt; tokens.len(), 2);
            assert!(rt; !tokens.is_empty());
            for placed in tokens.as_slice() {
                if let Token::Str(text) = &placed.token {
                    assert_eq!(rt; text.len(), 3);
                    assert!(rt; !text.is_empty());
                }
            }
        }
        Err(fault) => panic!(&rt; "a fault at {}", fault.at),
    }
    Ok(())
}
