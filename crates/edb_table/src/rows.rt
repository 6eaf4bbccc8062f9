//! A table of rows, and the search for the row of a name and an arity.

ghost use Rattle.std.specs.Prelude.{◌≡◌, ◌<◌, ℕ, length, IsTrue, IfSome, IfNone};
ghost use Rattle.edb_table.specs.Keys.{key_of, keys_of, place_of, key_cmp, ascending, StandsAt};

use std::cmp::Ordering;

/// What a table has of a function: its name and its arity.
#[derive(Clone, Copy, PartialEq, Eq, Debug)]
pub struct Row {
    pub name: &'static str,
    pub arity: u8,
}

/// The place of the row with this name and arity, which is the same as reading from the top finds;
/// None if no row has both. The rows ascend by the bytes of their names, and those of one name by
/// arity, so the search halves.
pub fn find(rows: &[Row], name: &str, arity: u8) -> Option<usize>
    requires { IsTrue (ascending (keys_of rows.now)) }
    ensures first { result ≡ place_of (name.now, arity) (keys_of rows.now) }
    ensures found { IfSome result (StandsAt (name.now, arity) (keys_of rows.now)) }
    ensures only { IfSome result (λ at. (k : ℕ) → StandsAt (name.now, arity) (keys_of rows.now) k → k ≡ at) }
    ensures within { IfSome result (λ at. at < length rows.now) }
    ensures none { IfNone result ((k : ℕ) → ¬ (StandsAt (name.now, arity) (keys_of rows.now) k)) }
{
    rows.binary_search_by(
        |row: &Row| -> Ordering
            ensures { result ≡ key_cmp (key_of row.now) (name.entry.now, arity) }
        { row.name.cmp(name).then(row.arity.cmp(&arity)) },
    )
    .ok()
}
