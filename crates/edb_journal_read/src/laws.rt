//! A law of journals' texts: a function that does nothing and whose contract is the law.

ghost use Rattle.std.specs.Prelude.{◌≡◌, ℕ, List};
ghost use Rattle.edb_event.specs.declared.entry.Entry.{Entry};
ghost use Rattle.edb_journal.specs.Accepted.{Reads, IsFault};

/// No text reads as two journals, none both reads and is refused, and none is refused at two lines.
pub fn journals_read_once()
    ensures one { (bytes : List ℕ) (es : List Entry) (fs : List Entry) → Reads bytes es → Reads bytes fs → es ≡ fs }
    ensures either { (bytes : List ℕ) (es : List Entry) (n : ℕ) → Reads bytes es → IsFault bytes n → ⊥ }
    ensures first { (bytes : List ℕ) (n : ℕ) (m : ℕ) → IsFault bytes n → IsFault bytes m → n ≡ m }
{}
