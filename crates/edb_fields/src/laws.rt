//! Laws of fields. Each is a function that does nothing and whose contract is the law: no bytes begin with the fields of two
//! values, nor with a field of one value in two ways.

ghost use Rattle.std.specs.Prelude.{◌≤◌, ◌<◌, ◌^◌, ℕ, List};
ghost use Rattle.std.specs.Fmt.{decimal};
ghost use Rattle.edb_lang.specs.TermText.{atom_text, plain_text};
ghost use Rattle.edb_fields.specs.Atoms.{IsAtomName};
ghost use Rattle.edb_fields.specs.Fronts.{IsReadOnce};
ghost use Rattle.edb_fields.specs.Hexadecimal.{AreBytes, hex_text};
ghost use Rattle.edb_fields.specs.Literals.{IsPlain, IsPlainList};
ghost use Rattle.edb_fields.specs.Numerals.{IsBetween};

/// A number is read in one way.
pub fn numbers_read_once()
    ensures { (least : ℕ) (most : ℕ) → most < 2 ^ 128 → IsReadOnce decimal (IsBetween least most) }
{}

/// Bytes are read in one way.
pub fn bytes_read_once()
    ensures { IsReadOnce hex_text AreBytes }
{}

/// An atom is read in one way.
pub fn names_read_once()
    ensures { IsReadOnce atom_text IsAtomName }
{}

/// A literal term is read in one way.
pub fn terms_read_once()
    ensures { (levels : ℕ) (room : ℕ) → IsReadOnce plain_text (IsPlain levels room) }
{}

/// The list of a start is read in one way.
pub fn lists_read_once()
    ensures { IsReadOnce plain_text IsPlainList }
{}
