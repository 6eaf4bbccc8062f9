//! Laws of terms, of their order and of bindings. Each is a function that does nothing and whose
//! contract is the law.

ghost use Rattle.std.specs.Prelude.{◌≡◌, ◌≢◌, ◌≤◌, ◌↔◌, ℕ, List};
ghost use Rattle.std.specs.declared.cmp.Ordering.{Ordering};
ghost use Rattle.std.specs.Ordering.{ordering_reverse};
ghost use Rattle.edb_lang.specs.Order.{term_cmp};
ghost use Rattle.edb_lang.specs.Pairs.{Pairs, Ascends, bound, with_pair, bindings_of};
ghost use Rattle.edb_lang.specs.Terms as spec;

/// Two terms that compare as equal are one term.
pub fn order_equal_is_same()
    ensures { (x : spec.Datum) (y : spec.Datum) → (term_cmp x y ≡ Ordering.Equal) ↔ (x ≡ y) }
{}

/// The order answers the reversed question by the reverse.
pub fn order_reverses()
    ensures { (x : spec.Datum) (y : spec.Datum) → term_cmp y x ≡ ordering_reverse (term_cmp x y) }
{}

/// A term below one that is below a third is below the third.
pub fn order_is_transitive()
    ensures { (x : spec.Datum) (y : spec.Datum) (z : spec.Datum) → term_cmp x y ≡ Ordering.Less → term_cmp y z ≡ Ordering.Less → term_cmp x z ≡ Ordering.Less }
{}

/// A term is no higher than large.
pub fn height_is_below_size()
    ensures { (t : spec.Datum) → spec.height t ≤ spec.size t }
{}

/// A variable that was bound has the value that it was bound to.
pub fn bound_is_found()
    ensures { (x : List ℕ) (t : spec.Datum) (ps : Pairs) → Ascends ps → bound x ps ≡ None → bound x (with_pair x t ps) ≡ Some t }
{}

/// Binding a variable leaves the others as they were.
pub fn others_stay()
    ensures { (x : List ℕ) (y : List ℕ) (t : spec.Datum) (ps : Pairs) → y ≢ x → bound y (with_pair x t ps) ≡ bound y ps }
{}

/// Binding a variable keeps the names ascending.
pub fn names_ascend()
    ensures { (x : List ℕ) (t : spec.Datum) (ps : Pairs) → Ascends ps → Ascends (with_pair x t ps) }
{}

/// The bindings made of any pairs have ascending names, and of each name the value of its first pair.
pub fn first_pair_counts()
    ensures ascending { (ps : Pairs) → Ascends (bindings_of ps) }
    ensures first { (x : List ℕ) (ps : Pairs) → bound x (bindings_of ps) ≡ bound x ps }
{}
