//! The classes of first bytes: what begins with a byte is of the kinds of its class alone.

ghost use Rattle.std.specs.Prelude.{◌≡◌};
ghost use Rattle.edb_scan.specs.FirstByte.{class_of};
ghost use Rattle.edb_scan.specs.Letters as specs;

/// What a byte can begin.
#[derive(Clone, Copy, Drop)]
pub enum Class {
    /// A byte of white space.
    Space,
    /// A comment.
    Percent,
    /// A number.
    Digit,
    /// A bare atom or a reserved word.
    Lower,
    /// A variable.
    Upper,
    /// A string.
    Quote,
    /// An atom in quotes.
    Tick,
    /// A character.
    Dollar,
    /// A mark or a dot, if anything.
    Other,
}

/// The class of a first byte.
#[tactic(auto, unfolding(crate::specs::FirstByte::class_of))]
pub fn classify(byte: u8) -> Class
    ensures { result ≡ class_of byte }
{
    if is_space(byte) {
        Class::Space
    } else if byte == b'%' {
        Class::Percent
    } else if byte.is_ascii_digit() {
        Class::Digit
    } else if byte.is_ascii_lowercase() {
        Class::Lower
    } else if byte.is_ascii_uppercase() || byte == b'_' {
        Class::Upper
    } else if byte == b'"' {
        Class::Quote
    } else if byte == b'\'' {
        Class::Tick
    } else if byte == b'$' {
        Class::Dollar
    } else {
        Class::Other
    }
}

/// Whether the byte is white space: a space, a tab, a carriage return, a newline or a form feed.
pub fn is_space(byte: u8) -> bool
    ensures { result ≡ specs.is_space byte }
{
    byte == b' ' || byte == b'\t' || byte == b'\r' || byte == b'\n' || byte == 12
}

/// Whether the byte may follow the first one of a name.
pub fn is_name_char(byte: u8) -> bool
    ensures { result ≡ specs.is_name_char byte }
{
    byte.is_ascii_alphanumeric() || byte == b'_' || byte == b'@'
}
