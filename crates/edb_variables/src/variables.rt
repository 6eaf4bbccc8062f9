//! A stack of pairs.

ghost use Rattle.std.specs.Prelude.{◌≡◌, ◌≤◌, ◌<◌, ◌+◌, ◌∷◌, ◌++◌, [], IfOk, OnOk, length, MatchOption};
ghost use Rattle.std.specs.Option.{option_copied, option_map};
ghost use Rattle.edb_lang.specs.Pairs.{bound, bindings_of, with_pair, Ascends};
ghost use Rattle.edb_lang.specs.TermViews.{pairs_of};
ghost use Rattle.edb_variables.specs.PairStacks.{newest_first, oldest, pair_at, value_at, place_bound};

use edb_lang::{Bindings, Captured, Name, Term};
use std::alloc::{AllocError, Global};
use std::marker::Model;

/// Variables with their values, one pair on the other. Where a name has several pairs, the newest counts. Contracts see
/// the pairs, the newest first, and for how many more there is room.
#[derive(Drop)]
pub struct Variables {
    items: Vec<Captured>,
}

impl Model for Variables {
    ghost use Rattle.std.specs.Prelude.{◌-◌};
    ghost use Rattle.std.specs.Vec.{vec_len, vec_capacity};
    ghost use Rattle.std.specs.Coded.{codes};
    ghost use Rattle.edb_lang.specs.TermCodes.{coded_datum};
    ghost use Rattle.edb_variables.specs.PairStacks.{PairStack, newest_first as from_newest};

    ghost Value = { PairStack };

    ghost coded = { Prim.hlevel (codes, coded_datum) };

    ghost view = { λ v. record { pairs = from_newest v.items.items; room = vec_capacity v.items - vec_len v.items } };
}

impl Variables {
    /// No pairs; takes no memory.
    pub fn new(alloc: Global) -> Variables
        ensures { result.pairs ≡ [] }
    {
        Variables {
            items: Vec::new(alloc),
        }
    }

    /// These pairs, of which the last is the newest; takes no memory.
    pub fn of(pairs: Vec<Captured>) -> Variables
        ensures { result.pairs ≡ newest_first pairs.items }
    {
        Variables { items: pairs }
    }

    /// How many pairs there are: the mark to which `cut` comes back.
    pub fn len(&self) -> usize
        ensures { result ≡ length self.now.pairs }
    {
        self.items.len()
    }

    /// The pairs, the newest last.
    pub fn pairs(&self) -> &[Captured]
        ensures { newest_first result.now ≡ self.now.pairs }
    {
        &self.items
    }

    /// The value of the pair at a place, counted from 0 for the oldest; `None` where there is no such pair.
    pub fn get(&self, place: usize) -> Option<&Term>
        ensures { option_copied result ≡ value_at place self.now.pairs }
    {
        match self.items.get(place) {
            Some(pair) => Some(&pair.value),
            None => None,
        }
    }

    /// The value of a variable; `None` where it is not bound.
    pub fn find(&self, name: &Name) -> Option<&Term>
        ensures { option_copied result ≡ bound name.now self.now.pairs }
    {
        match self.place(name) {
            Some(place) => self.get(place),
            None => None,
        }
    }

    /// The place of the newest pair of this name, at which `get` reads the variable's value; `None` where it is not bound.
    pub fn place(&self, name: &Name) -> Option<usize>
        ensures { result ≡ place_bound name.now self.now.pairs }
    {
        newest_place(&self.items, name)
    }

    /// Makes room for so many pairs; where memory is refused the pairs stay as they were.
    pub fn reserve(&mut self, count: usize) -> Result<(), AllocError>
        ensures ok { OnOk result (count ≤ self.new.room) }
        ensures pairs { self.new.pairs ≡ self.old.pairs }
        ensures room { self.old.room ≤ self.new.room }
    {
        self.items.reserve(count)?;
        Ok(())
    }

    /// Puts a pair on the others, where there is room; takes no memory.
    pub fn push(&mut self, name: Name, value: Term)
        requires room { 0 < self.old.room }
        ensures pairs { self.new.pairs ≡ (name, value) ∷ self.old.pairs }
        ensures room { self.new.room + 1 ≡ self.old.room }
    {
        self.items.push_reserved(Captured { name, value });
    }

    /// Puts these pairs on the others, the first of them first, where there is room; takes no memory.
    pub fn push_all(&mut self, pairs: Vec<Captured>)
        requires room { length pairs.items ≤ self.old.room }
        ensures pairs { self.new.pairs ≡ newest_first pairs.items ++ self.old.pairs }
        ensures room { self.old.room ≤ self.new.room + length pairs.items }
    {
        let mut items = pairs;
        let _never_refused = self.items.append(&mut items);
    }

    /// Takes the newest pair away, where there is one.
    pub fn pop(&mut self) -> Option<Captured>
        ensures pairs { MatchOption result ((self.old.pairs ≡ []) × (self.new.pairs ≡ [])) (λ pair. self.old.pairs ≡ (pair.name, pair.value) ∷ self.new.pairs) }
        ensures room { self.old.room ≤ self.new.room }
    {
        self.items.pop()
    }

    /// Takes the newest pairs away, down to this many.
    pub fn cut(&mut self, mark: usize)
        ensures pairs { self.new.pairs ≡ oldest mark self.old.pairs }
        ensures room { self.old.room ≤ self.new.room }
    {
        self.items.truncate(mark);
    }

    /// Takes the value of the pair at a place out of the pairs, which all go; `None` where there is no such pair.
    pub fn into_value(self, place: usize) -> Option<Term>
        ensures { result ≡ value_at place self.pairs }
    {
        let mut items = self.items;
        if place >= items.len() {
            return None;
        }
        let pair = items.swap_remove(place);
        Some(pair.value)
    }

    /// The bindings that the pairs are, by name. `AllocError` only if out of memory, here and in all that follows.
    pub fn bindings(&self, alloc: Global) -> Result<Bindings, AllocError>
        ensures { IfOk result (λ bindings. bindings ≡ bindings_of self.now.pairs) }
    {
        bindings_by_name(alloc, &self.items)
    }

    /// The same as pairs, their names ascending.
    pub fn captured(&self, alloc: Global) -> Result<Vec<Captured>, AllocError>
        ensures { IfOk result (λ pairs. pairs_of pairs.items ≡ bindings_of self.now.pairs) }
    {
        self.bindings(alloc)?.captured(alloc)
    }

    /// Equal pairs.
    pub fn copy(&self, alloc: Global) -> Result<Variables, AllocError>
        ensures { IfOk result (λ copied. copied.pairs ≡ self.now.pairs) }
    {
        let mut items = Vec::with_capacity(alloc, self.items.len())?;
        for pair in &self.items {
            let name = pair.name.copy(alloc)?;
            let value = pair.value.copy(alloc)?;
            items.push(Captured { name, value })?;
        }
        Ok(Variables { items })
    }
}

/// The place of the newest pair of this name.
fn newest_place(pairs: &[Captured], name: &Name) -> Option<usize>
    ensures { result ≡ place_bound name.now (newest_first pairs.now) }
{
    let mut place = pairs.len();
    while place > 0 {
        place -= 1;
        if name.cmp(&pairs[place].name).is_eq() {
            return Some(place);
        }
    }
    None
}

/// The bindings of these pairs, the newest last.
fn bindings_by_name(alloc: Global, pairs: &[Captured]) -> Result<Bindings, AllocError>
    ensures { IfOk result (λ bindings. bindings ≡ bindings_of (newest_first pairs.now)) }
{
    let mut bindings = Bindings::new(alloc);
    let mut place = pairs.len();
    while place > 0 {
        place -= 1;
        bind_older(alloc, &mut bindings, &pairs[place])?;
    }
    Ok(bindings)
}

/// Binds a variable to a pair's value, unless a newer pair has bound it.
fn bind_older(alloc: Global, bindings: &mut Bindings, pair: &Captured) -> Result<(), AllocError>
    requires { Ascends bindings.old }
    ensures { OnOk result (bindings.new ≡ with_pair pair.now.name pair.now.value bindings.old) }
{
    match bindings.get(&pair.name) {
        Some(_) => Ok(()),
        None => {
            let name = pair.name.copy(alloc)?;
            let value = pair.value.copy(alloc)?;
            bindings.bind(name, value)
        }
    }
}
