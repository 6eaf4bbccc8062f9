//! Marks and dots.

ghost use Rattle.std.specs.Prelude.{◌≡◌, ◌≤◌, ◌++◌, ◌∷◌, [], true, List, ℕ, MatchOption, IsTrue, ◌↔◌};
ghost use Rattle.edb_scan.specs.declared.classes.Class.TheVariants.{Other};
ghost use Rattle.edb_scan.specs.declared.lexeme.Mark.{Mark};
ghost use Rattle.edb_scan.specs.FirstByte.{Heads};
ghost use Rattle.edb_scan.specs.Fronts.{Finds};
ghost use Rattle.edb_scan.specs.RowFronts.{LongestRow, longest_first, table_of};
ghost use Rattle.edb_scan.specs.Lexis as lexis;
ghost use Rattle.edb_scan.specs.Spellings.{Lists};

use crate::classes::is_space;
use crate::lexeme::{Mark, Token};
use crate::tables::MARKS;

/// The mark of the table's first row whose text begins these bytes, and what comes after it.
fn find_front<'a>(table: &[(&'static [u8], Mark)], bytes: &'a [u8]) -> Option<(Mark, &'a [u8])>
    requires { longest_first (table_of table.now) ≡ true }
    ensures { MatchOption result ((text after : List ℕ) (m : Mark) → bytes.now ≡ text ++ after → Lists (table_of table.now) text m → ⊥) (λ x. LongestRow (table_of table.now) bytes.now x.1.now x.0) }
{
    for (spelling, mark) in table {
        match bytes.strip_prefix(*spelling) {
            Some(after) => return Some((*mark, after)),
            None => {}
        }
    }
    None
}

/// Whether a `.` before these bytes is a dot.
fn ends_form(after: &[u8]) -> bool
    ensures { result ≡ lexis.ends_form after.now }
{
    match after.first() {
        Some(byte) => is_space(*byte) || *byte == b'%',
        None => true,
    }
}

/// Whether these bytes are a `.` alone, and what comes after it.
fn is_point(bytes: &[u8], after: &[u8]) -> bool
    requires { (text : List ℕ) × (bytes.now ≡ text ++ after.now) }
    ensures { IsTrue result ↔ (bytes.now ≡ 46 ∷ after.now) }
{
    match bytes.split_first() {
        Some((first, rest)) => *first == b'.' && rest.len() == after.len(),
        None => false,
    }
}

/// Whether a lone `.` before what comes after it is a dot.
fn is_dot(bytes: &[u8], after: &[u8]) -> bool
    requires { (text : List ℕ) × (bytes.now ≡ text ++ after.now) }
    ensures { IsTrue result ↔ ((bytes.now ≡ 46 ∷ after.now) × (lexis.ends_form after.now ≡ true)) }
{
    is_point(bytes, after) && ends_form(after)
}

/// A mark or a dot.
pub fn mark(bytes: &[u8]) -> Option<(Option<Token>, &[u8])>
    requires { Heads Other bytes.now }
    ensures { Finds bytes.now result }
{
    match find_front(&MARKS, bytes) {
        Some((mark, after)) => {
            if is_dot(bytes, after) {
                return Some((Some(Token::Dot), after));
            }
            Some((Some(Token::Mark(mark)), after))
        }
        None => None,
    }
}
