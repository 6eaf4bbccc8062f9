//! Bindings: variables with their values.

ghost use Rattle.std.specs.Prelude.{◌≡◌, [], IfOk, OnOk, OnErr};
ghost use Rattle.std.specs.Option.{option_copied};
ghost use Rattle.edb_lang.specs.Pairs.{bound, with_pair, bindings_of};
ghost use Rattle.edb_lang.specs.Places.{Placed};
ghost use Rattle.edb_lang.specs.TermViews.{pairs_of};

use crate::Name;
use crate::term::{Captured, Term, copy_captured};
use std::alloc::{AllocError, Global};
use std::cmp::Ordering;
use std::marker::Model;

/// Variables, each with its value. Contracts see the pairs, their names ascending.
#[derive(Drop)]
pub struct Bindings {
    pairs: Vec<Captured>,
}

impl Model for Bindings {
    ghost use Rattle.edb_lang.specs.Pairs.{Pairs, Ascends};
    ghost use Rattle.edb_lang.specs.TermCodes.{coded_pairs};

    ghost Value = { Pairs };

    ghost coded = { coded_pairs };

    ghost use Rattle.edb_lang.specs.TermViews.{pairs_of};

    ghost view = { λ b. pairs_of b.pairs.items };

    ghost invariant = { λ b. Ascends (pairs_of b.pairs.items) };
}

impl Bindings {
    /// No bindings.
    pub fn new(alloc: Global) -> Bindings
        ensures { result ≡ [] }
    {
        Bindings {
            pairs: Vec::new(alloc),
        }
    }

    /// The bindings of these pairs, of which the first of each name counts; refused only for want of
    /// memory.
    pub fn of(alloc: Global, pairs: &[Captured]) -> Result<Bindings, AllocError>
        ensures { IfOk result (λ bindings. bindings ≡ bindings_of (pairs_of pairs.now)) }
    {
        let mut bindings = Bindings::new(alloc);
        for given in pairs {
            let name = given.name.copy(alloc)?;
            let value = given.value.copy(alloc)?;
            bindings.add(name, value)?;
        }
        Ok(bindings)
    }

    /// The value of a variable, where it is bound.
    pub fn get(&self, name: &Name) -> Option<&Term>
        ensures { option_copied result ≡ bound name.now self.now }
    {
        find(&self.pairs, name)
    }

    /// Binds a variable that is not bound; refused only for want of memory, and then the bindings stay
    /// as they were.
    pub fn bind(&mut self, name: Name, value: Term) -> Result<(), AllocError>
        requires { bound name self.old ≡ None }
        ensures ok { OnOk result (self.new ≡ with_pair name value self.old) }
        ensures err { OnErr result (self.new ≡ self.old) }
    {
        self.add(name, value)
    }

    /// The pairs, their names ascending; refused only for want of memory.
    pub fn captured(&self, alloc: Global) -> Result<Vec<Captured>, AllocError>
        ensures { IfOk result (λ pairs. pairs_of pairs.items ≡ self.now) }
    {
        copy_captured(alloc, &self.pairs)
    }

    /// Equal bindings; refused only for want of memory.
    pub fn copy(&self, alloc: Global) -> Result<Bindings, AllocError>
        ensures { IfOk result (λ bindings. bindings ≡ self.now) }
    {
        let pairs = copy_captured(alloc, &self.pairs)?;
        Ok(Bindings { pairs })
    }

    // Binds the variable unless it is bound.
    fn add(&mut self, name: Name, value: Term) -> Result<(), AllocError>
        ensures ok { OnOk result (self.new ≡ with_pair name value self.old) }
        ensures err { OnErr result (self.new ≡ self.old) }
    {
        match place_of(&self.pairs, &name) {
            Some(place) => {
                self.pairs.insert(place, Captured { name, value })?;
                Ok(())
            }
            None => Ok(()),
        }
    }
}

fn find<'a>(pairs: &'a [Captured], name: &Name) -> Option<&'a Term>
    ensures { option_copied result ≡ bound name.now (pairs_of pairs.now) }
{
    for pair in pairs {
        if name.cmp(&pair.name).is_eq() {
            return Some(&pair.value);
        }
    }
    None
}

// Where a pair of this name belongs, unless there is one.
fn place_of(pairs: &[Captured], name: &Name) -> Option<usize>
    ensures { Placed name.now pairs.now result }
{
    for (place, pair) in pairs.iter().enumerate() {
        match name.cmp(&pair.name) {
            Ordering::Less => return Some(place),
            Ordering::Equal => return None,
            Ordering::Greater => {}
        }
    }
    Some(pairs.len())
}
