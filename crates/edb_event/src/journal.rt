//! The journal of a session.

ghost use Rattle.std.specs.Prelude.{◌≡◌, ◌≤◌, ◌<◌, ◌+◌, ◌++◌, ◌∷◌, [], OnOk, OnErr};
ghost use Rattle.edb_event.specs.Ranges.{IsEntry, IsJournal, most_weight};
ghost use Rattle.edb_event.specs.Weights.{weight, weight_of};

use crate::{Entry, entry_weight};
use std::alloc::{AllocError, Global};
use std::marker::Model;

/// The entries of a session, in order. Contracts see them, and for how many more there is room. The
/// fields of each entry are in the ranges of docs/DEFINITIONS.md, and the weight is at most 1,007,000.
#[derive(Drop)]
pub struct Journal {
    entries: Vec<Entry>,
}

impl Model for Journal {
    ghost use Rattle.std.specs.Prelude.{◌-◌};
    ghost use Rattle.std.specs.Vec.{vec_len, vec_capacity};
    ghost use Rattle.std.specs.Coded.{codes};
    ghost use Rattle.edb_lang.specs.TermCodes.{coded_datum};
    ghost use Rattle.edb_event.specs.Books.{Book};

    ghost Value = { Book };

    ghost coded = { Prim.hlevel (codes, coded_datum) };

    ghost view = { λ j. record { entries = j.entries.items; spare = vec_capacity j.entries - vec_len j.entries } };

    ghost use Rattle.edb_event.specs.Ranges.{IsJournal};

    ghost invariant = { λ j. IsJournal j.entries.items };
}

impl Journal {
    /// No entries; takes no memory.
    pub fn new(alloc: Global) -> Journal
        ensures { result.entries ≡ [] }
    {
        Journal {
            entries: Vec::new(alloc),
        }
    }

    /// The entries, in order. Each is in the ranges, and together they are no heavier than any may be.
    pub fn entries(&self) -> &[Entry]
        ensures entries { result.now ≡ self.now.entries }
        ensures journal { IsJournal result.now }
    {
        self.entries.as_slice()
    }

    /// What the entries weigh together.
    pub fn weight(&self) -> u32
        ensures sum { result ≡ weight self.now.entries }
        ensures bound { result ≤ most_weight }
    {
        let mut total = 0;
        for entry in &self.entries {
            total += entry_weight(entry);
        }
        total
    }

    /// Makes room for so many entries; where memory is refused the entries stay as they were.
    pub fn reserve(&mut self, n: u32) -> Result<(), AllocError>
        ensures ok { OnOk result (n ≤ self.new.spare) }
        ensures entries { self.new.entries ≡ self.old.entries }
    {
        self.entries.reserve(n as usize)?;
        Ok(())
    }

    /// Puts an entry behind the others; where memory is refused the entries stay as they were.
    pub fn push(&mut self, entry: Entry) -> Result<(), AllocError>
        requires range { IsEntry entry }
        requires light { weight self.old.entries + weight_of entry ≤ most_weight }
        ensures ok { OnOk result (self.new.entries ≡ self.old.entries ++ entry ∷ []) }
        ensures err { OnErr result (self.new.entries ≡ self.old.entries) }
    {
        self.entries.push(entry)?;
        Ok(())
    }

    /// Puts an entry behind the others, where there is room; takes no memory.
    pub fn push_reserved(&mut self, entry: Entry)
        requires range { IsEntry entry }
        requires light { weight self.old.entries + weight_of entry ≤ most_weight }
        requires room { 0 < self.old.spare }
        ensures entries { self.new.entries ≡ self.old.entries ++ entry ∷ [] }
        ensures room { self.old.spare ≤ self.new.spare + 1 }
    {
        self.entries.push_reserved(entry);
    }
}
