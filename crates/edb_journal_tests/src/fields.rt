//! Fields: which texts are one, and which aren't.

use edb_fields::{
    put_bytes, read_bytes, read_line_end, read_list, read_name, read_space, read_text, read_u32,
    read_u64, read_u128,
};
use std::alloc::{AllocError, Global};
use std::test::Fail;

/// A number between two bounds, and how many bytes come after its field.
fn number(least: u128, most: u128, bytes: &[u8]) -> Option<(u128, usize)> {
    match read_u128(least, most, bytes) {
        Ok((number, rest)) => Some((number, rest.len())),
        Err(_) => None,
    }
}

#[test]
fn numbers_have_one_spelling(rt: HostRuntime) -> Result<(), Fail> {
    let table: [(&'static [u8], Option<(u128, usize)>); 14] = [
        (b" 7 x", Some((7, 2))),
        (b" 8\n", Some((8, 1))),
        (b" 9\n", None),
        (b" 0\n", None),
        (b" 01\n", None),
        (b"  1\n", None),
        (b" 1", None),
        (b" \n", None),
        (b" -1\n", None),
        (b" +1\n", None),
        (b" 1a\n", None),
        (b" 1\t\n", None),
        (b"1\n", None),
        (b"", None),
    ];
    for (bytes, wanted) in table {
        assert!(rt; number(1, 8, bytes) == wanted);
    }
    Ok(())
}

#[test]
fn numbers_have_bounds(rt: HostRuntime) -> Result<(), Fail> {
    assert!(rt;
        matches!(
            read_u32(0, u32::MAX, b" 4294967295\n"),
            Ok((u32::MAX, b"\n"))
        )
    );
    assert!(rt; read_u32(0, u32::MAX, b" 4294967296\n").is_err());
    assert!(rt;
        matches!(
            read_u64(0, u64::MAX, b" 18446744073709551615\n"),
            Ok((u64::MAX, b"\n"))
        )
    );
    assert!(rt; read_u64(0, u64::MAX, b" 18446744073709551616\n").is_err());
    let most = b" 340282366920938463463374607431768211455\n";
    assert!(rt; number(0, u128::MAX, most) == Some((u128::MAX, 1)));
    assert!(rt; number(0, u128::MAX, b" 340282366920938463463374607431768211456\n").is_none());
    assert!(rt; number(0, u128::MAX, b" 9999999999999999999999999999999999999999\n").is_none());
    Ok(())
}

/// Whether bytes are read of this text and written as it stands.
fn is_hexadecimal(alloc: Global, text: &[u8]) -> Result<bool, AllocError> {
    match read_bytes(alloc, text) {
        Ok((bytes, rest)) => {
            let mut out = Vec::new(alloc);
            put_bytes(&mut out, bytes.as_slice())?;
            out.extend_from_slice(rest)?;
            Ok(out.as_slice() == text)
        }
        Err(_) => Ok(false),
    }
}

#[test]
fn bytes_have_one_spelling(rt: HostRuntime) -> Result<(), Fail> {
    let alloc = rt.alloc();
    for text in [b" -\n".as_slice(), b" 00ff10ab -", b" 350a\n"] {
        assert!(rt; is_hexadecimal(alloc, text)?);
    }
    let others: [&'static [u8]; 8] = [
        b" 3A\n", b" 3\n", b" \n", b" -0\n", b"  00\n", b" 00", b" 0g\n", b" 000\n",
    ];
    for text in others {
        assert!(rt; !is_hexadecimal(alloc, text)?);
    }
    Ok(())
}

/// The bytes of the name that is read of this text.
fn name_size(alloc: Global, text: &[u8]) -> Option<usize> {
    let mut scratch = Vec::new(alloc);
    match read_name(alloc, &mut scratch, text) {
        Ok((name, _)) => Some(name.as_bytes().len()),
        Err(_) => None,
    }
}

#[test]
fn names_have_one_spelling(rt: HostRuntime) -> Result<(), Fail> {
    let table: [(&'static [u8], Option<usize>); 22] = [
        (b" shop 1", Some(4)),
        (b" a@_1Z\n", Some(5)),
        (b" Shop\n", None),
        (b" 'Shop'\n", Some(4)),
        (b" 'shop'\n", None),
        (b" end\n", None),
        (b" 'end'\n", Some(3)),
        (b" ''\n", Some(0)),
        (b" '\\n'\n", Some(1)),
        (b" '\\x0a'\n", None),
        (b" '\\x01'\n", Some(1)),
        (b" '\\x1f'\n", Some(1)),
        (b" '\\x1F'\n", None),
        (b" '\\x41'\n", None),
        (b" '\\''\n", Some(1)),
        (b" '\\\\'\n", Some(1)),
        (b" '\"'\n", Some(1)),
        (b" '\\\"'\n", None),
        (b" 'a\nb'\n", None),
        (b" 'a b'x\n", None),
        (b" '\xc3\xa4'\n", Some(2)),
        (b" '\xc3'\n", None),
    ];
    for (text, wanted) in table {
        assert!(rt; name_size(rt.alloc(), text) == wanted);
    }
    Ok(())
}

#[test]
fn names_have_255_characters(rt: HostRuntime) -> Result<(), Fail> {
    let alloc = rt.alloc();
    for (count, wanted) in [(255, Some(510)), (256, None)] {
        let mut text = Vec::from_slice(alloc, b" '")?;
        for _ in 0..count {
            text.extend_from_slice(b"\xc3\xa4")?;
        }
        text.extend_from_slice(b"'\n")?;
        assert!(rt; name_size(alloc, text.as_slice()) == wanted);
    }
    Ok(())
}

/// Whether a list of arguments is read of this text.
fn is_list(alloc: Global, text: &[u8]) -> bool {
    let mut scratch = Vec::new(alloc);
    read_list(alloc, &mut scratch, text).is_ok()
}

#[test]
fn lists_have_one_spelling(rt: HostRuntime) -> Result<(), Fail> {
    let lists: [&'static [u8]; 8] = [
        b" []\n",
        b" [1]\n",
        b" [-1,a,'B c']\n",
        b" [[1,2|x],{},{1},{a,{b,[]}}] \n",
        b" [97,98]\n",
        b" [170141183460469231731687303715884105727,-170141183460469231731687303715884105727]\n",
        b" ['\\n']\n",
        b" [0]\n",
    ];
    for text in lists {
        assert!(rt; is_list(rt.alloc(), text));
    }
    let others: [&'static [u8]; 20] = [
        b" [1|2]\n",
        b" {}\n",
        b" a\n",
        b" [01]\n",
        b" [-0]\n",
        b" [1, 2]\n",
        b" [ ]\n",
        b" [1,]\n",
        b" [,1]\n",
        b" [1\n",
        b" \"ab\"\n",
        b" [$a]\n",
        b" [<1>]\n",
        b" [#Ref<1>]\n",
        b" [fun a:b/1]\n",
        b" [170141183460469231731687303715884105728]\n",
        b" [1]x\n",
        b" [A]\n",
        b" [1|[2]]\n",
        b" [1.0]\n",
    ];
    for text in others {
        assert!(rt; !is_list(rt.alloc(), text));
    }
    Ok(())
}

#[test]
fn lists_have_100_000_nodes(rt: HostRuntime) -> Result<(), Fail> {
    let alloc = rt.alloc();
    // A list, a tuple and the list's end are three nodes more than the zeros.
    for (zeros, wanted) in [(99_997, true), (99_998, false)] {
        let mut text = Vec::from_slice(alloc, b" [{0")?;
        for _ in 1..zeros {
            text.extend_from_slice(b",0")?;
        }
        text.extend_from_slice(b"}]\n")?;
        assert!(rt; is_list(alloc, text.as_slice()) == wanted);
    }
    Ok(())
}

#[test]
fn fields_are_parted_by_one_space(rt: HostRuntime) -> Result<(), Fail> {
    assert!(rt; matches!(read_space(b" 1\n"), Ok(b"1\n")));
    assert!(rt; read_space(b"\t1\n").is_err());
    assert!(rt; matches!(read_line_end(b"\nran"), Ok(b"ran")));
    assert!(rt; read_line_end(b"\r\n").is_err());
    assert!(rt; matches!(read_text(b"by", b"by 1"), Ok(b" 1")));
    assert!(rt; read_text(b"by", b"b").is_err());
    Ok(())
}
