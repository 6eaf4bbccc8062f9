//! What comes first: a byte, the space before a field, the end of a line, a text.

ghost use Rattle.std.specs.Prelude.{◌≡◌, ℕ, IfOk, IfErr, codes};
ghost use Rattle.edb_fields.specs.Answers.{Gives};
ghost use Rattle.edb_fields.specs.Fronts.{Follows, NotFollows};
ghost use Rattle.edb_fields.specs.Reading as spec;
ghost use Rattle.edb_fields.specs.Reading.{first_at, byte_at, space_at, line_end_at};
ghost use Rattle.edb_fields.specs.Separators.{ends};
ghost use Rattle.edb_fields.specs.declared.refusal.ReadError.TheVariants.{Refused};

use crate::ReadError;

/// The first byte and the rest.
pub(crate) fn first(bytes: &[u8]) -> Result<(u8, &[u8]), ReadError>
    ensures read { Gives (λ x. (x.0, x.1.now)) result (first_at bytes.now) }
    ensures cause { IfErr result (λ e. e ≡ Refused) }
{
    match bytes.split_first() {
        Some((byte, rest)) => Ok((*byte, rest)),
        None => Err(ReadError::Refused),
    }
}

/// What comes after this byte.
pub(crate) fn after_byte(wanted: u8, bytes: &[u8]) -> Result<&[u8], ReadError>
    ensures read { Gives (λ x. x.now) result (byte_at wanted bytes.now) }
    ensures cause { IfErr result (λ e. e ≡ Refused) }
{
    let (byte, rest) = first(bytes)?;
    if byte == wanted {
        Ok(rest)
    } else {
        Err(ReadError::Refused)
    }
}

/// What comes after the one space before a field.
pub fn read_space(bytes: &[u8]) -> Result<&[u8], ReadError>
    ensures read { Gives (λ x. x.now) result (space_at bytes.now) }
    ensures found { IfOk result (λ x. Follows (codes " ") bytes.now x.now) }
    ensures none { IfErr result (λ e. NotFollows (codes " ") bytes.now e) }
    ensures cause { IfErr result (λ e. e ≡ Refused) }
{
    after_byte(b' ', bytes)
}

/// What comes after the newline at the end of a line.
pub fn read_line_end(bytes: &[u8]) -> Result<&[u8], ReadError>
    ensures read { Gives (λ x. x.now) result (line_end_at bytes.now) }
    ensures found { IfOk result (λ x. Follows (codes "\n") bytes.now x.now) }
    ensures none { IfErr result (λ e. NotFollows (codes "\n") bytes.now e) }
    ensures cause { IfErr result (λ e. e ≡ Refused) }
{
    after_byte(b'\n', bytes)
}

/// Whether a field ends here: a space or a newline comes next.
pub(crate) fn is_end(bytes: &[u8]) -> bool
    ensures { result ≡ ends bytes.now }
{
    match bytes.split_first() {
        Some((byte, _)) => *byte == b' ' || *byte == b'\n',
        None => false,
    }
}

/// What comes after this text.
#[tactic(auto, using(crate::proofs::Texts::after_text_is))]
fn after_text<'a>(text: &[u8], bytes: &'a [u8]) -> Result<&'a [u8], ReadError>
    ensures read { Gives (λ x. x.now) result (spec.after_text text.now bytes.now) }
    ensures cause { IfErr result (λ e. e ≡ Refused) }
{
    match bytes.strip_prefix(text) {
        Some(rest) => Ok(rest),
        None => Err(ReadError::Refused),
    }
}

/// What comes after this text.
pub fn read_text<'a>(text: &[u8], bytes: &'a [u8]) -> Result<&'a [u8], ReadError>
    ensures read { Gives (λ x. x.now) result (spec.after_text text.now bytes.now) }
    ensures found { IfOk result (λ x. Follows text.now bytes.now x.now) }
    ensures none { IfErr result (λ e. NotFollows text.now bytes.now e) }
    ensures cause { IfErr result (λ e. e ≡ Refused) }
{
    after_text(text, bytes)
}
