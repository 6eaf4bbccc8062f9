//! Tokens, each after its gap.

ghost use Rattle.std.specs.Prelude.{◌≡◌, ◌++◌, ◌∷◌, [], IfOk, OnOk, map, string_bytes, encode_utf8_all};
ghost use Rattle.std.specs.Fmt.{decimal};
ghost use Rattle.std.specs.List.{flat_map};
ghost use Rattle.edb_lang.specs.TermText.{escaped, quoted};
ghost use Rattle.edb_scan.specs.declared.lexeme.Mark.TheVariants as mark;
ghost use Rattle.edb_scan.specs.declared.lexeme.Token.TheVariants as token;
ghost use Rattle.edb_print.specs.Pieces.{tight, piece, sign, piece_text, bytes_of, shown};
ghost use Rattle.edb_print.specs.Layout.{lay_integer};
ghost use Rattle.edb_print.specs.Views.{gap_of};

use crate::gaps::{Gap, put_gap};
use crate::marks::spelling;
use edb_lang::Name;
use edb_scan::Mark;
use edb_text::{put_atom, put_quoted};
use std::alloc::{AllocError, Global};

/// Puts a mark or a reserved word.
pub(crate) fn put_sign(out: &mut Vec<u8>, gap: Gap, mark: Mark) -> Result<(), AllocError>
    ensures { OnOk result (out.new.items ≡ out.old.items ++ piece_text (sign (gap_of gap) mark)) }
{
    put_gap(out, gap)?;
    out.extend_from_slice(spelling(mark))?;
    Ok(())
}

/// Puts an atom.
pub(crate) fn put_name(out: &mut Vec<u8>, gap: Gap, name: &[u8]) -> Result<(), AllocError>
    ensures { OnOk result (out.new.items ≡ out.old.items ++ piece_text (piece (gap_of gap) (token.Atom name.now))) }
{
    put_gap(out, gap)?;
    put_atom(out, name)
}

/// Puts a variable.
pub(crate) fn put_variable(out: &mut Vec<u8>, gap: Gap, name: &[u8]) -> Result<(), AllocError>
    ensures { OnOk result (out.new.items ≡ out.old.items ++ piece_text (piece (gap_of gap) (token.Var name.now))) }
{
    put_gap(out, gap)?;
    out.extend_from_slice(name)?;
    Ok(())
}

/// Puts a number.
pub(crate) fn put_number(
    out: &mut Vec<u8>,
    alloc: Global,
    gap: Gap,
    number: u128,
) -> Result<(), AllocError>
    ensures { OnOk result (out.new.items ≡ out.old.items ++ piece_text (piece (gap_of gap) (token.Int number))) }
{
    put_gap(out, gap)?;
    let digits = number.to_string(alloc)?;
    out.extend_from_slice(digits.as_bytes())?;
    Ok(())
}

/// Puts an integer: a negative one is `-` and its digits.
pub(crate) fn put_integer(
    out: &mut Vec<u8>,
    alloc: Global,
    gap: Gap,
    value: i128,
) -> Result<(), AllocError>
    ensures { OnOk result (out.new.items ≡ out.old.items ++ bytes_of (lay_integer (gap_of gap) value)) }
{
    if value < 0 {
        put_sign(out, gap, Mark::Minus)?;
        return put_number(out, alloc, Gap::Tight, value.unsigned_abs());
    }
    put_number(out, alloc, gap, value.unsigned_abs())
}

/// Puts a float.
pub(crate) fn put_float(out: &mut Vec<u8>, gap: Gap) -> Result<(), AllocError>
    ensures { OnOk result (out.new.items ≡ out.old.items ++ piece_text (piece (gap_of gap) token.Float)) }
{
    put_gap(out, gap)?;
    out.extend_from_slice(b"0.0")?;
    Ok(())
}

/// A code point as a character: U+FFFD if it isn't one.
fn character(point: u32) -> char
    ensures { result ≡ shown point }
{
    match char::from_u32(point) {
        Some(character) => character,
        None => char::REPLACEMENT_CHARACTER,
    }
}

/// The characters of a string in UTF-8.
fn characters(alloc: Global, points: &[u32]) -> Result<String, AllocError>
    ensures { IfOk result (λ s. string_bytes s ≡ encode_utf8_all (map shown points.now)) }
{
    let mut text = String::new(alloc);
    for point in points {
        text.push(character(*point))?;
    }
    Ok(text)
}

/// Puts a string.
pub(crate) fn put_string(
    out: &mut Vec<u8>,
    alloc: Global,
    gap: Gap,
    points: &[u32],
) -> Result<(), AllocError>
    ensures { OnOk result (out.new.items ≡ out.old.items ++ piece_text (piece (gap_of gap) (token.Str points.now))) }
{
    let text = characters(alloc, points)?;
    put_gap(out, gap)?;
    put_quoted(out, b'"', text.as_bytes())
}

/// Puts a name and an arity.
pub(crate) fn put_entry(
    out: &mut Vec<u8>,
    alloc: Global,
    gap: Gap,
    name: &Name,
    arity: u32,
) -> Result<(), AllocError>
    ensures { OnOk result (out.new.items ≡ out.old.items
        ++ bytes_of (piece (gap_of gap) (token.Atom name.now) ∷ sign tight mark.Slash ∷ piece tight (token.Int arity) ∷ [])) }
{
    put_name(out, gap, name.as_bytes())?;
    put_sign(out, Gap::Tight, Mark::Slash)?;
    put_number(out, alloc, Gap::Tight, arity as u128)
}
