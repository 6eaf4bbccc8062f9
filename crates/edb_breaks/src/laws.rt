//! Laws of the table. Each is a function that does nothing and whose contract is the law.

ghost use Rattle.std.specs.Prelude.{◌≡◌, ◌+◌, ◌↔◌, ℕ, List, Some, None, All};
ghost use Rattle.edb_breaks.specs.Table.{Table, IsSound, IsAt, new_break, row_at, with_row};

/// Nothing is found at a place exactly if no row is there.
pub fn none_where_no_row_stands()
    ensures { (m : List ℕ) (l : ℕ) (t : Table)
        → (row_at m l t ≡ None) ↔ All (λ r. ¬ (IsAt m l r)) t.rows }
{}

/// Each row is found at its place, since no other row is there.
pub fn each_row_is_found()
    ensures { (t : Table) → IsSound t → All (λ r. row_at r.module r.line t ≡ Some r.row) t.rows }
{}

/// A row that was added is found at its place, as a new breakpoint with the next serial.
pub fn added_row_is_found()
    ensures { (m : List ℕ) (l : ℕ) (t : Table)
        → row_at m l t ≡ None
        → row_at m l (with_row m l t) ≡ Some (new_break (t.given + 1)) }
{}

/// A row that is added changes nothing at other places.
pub fn other_places_stay()
    ensures { (m n : List ℕ) (l k : ℕ) (t : Table)
        → ¬ ((n ≡ m) × (k ≡ l))
        → row_at n k (with_row m l t) ≡ row_at n k t }
{}

/// A row that is added at a free place leaves rows apart and serials ascending.
pub fn table_stays_sound()
    ensures { (m : List ℕ) (l : ℕ) (t : Table)
        → row_at m l t ≡ None
        → IsSound t
        → IsSound (with_row m l t) }
{}
