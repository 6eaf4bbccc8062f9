//! The variables that are bound at a place of a function.

ghost use Rattle.std.specs.Prelude.{◌≡◌, ◌∷◌, [], OnOk, IfOk};
ghost use Rattle.edb_small.specs.Conditions as conditions;

use edb_lang::Name;
use std::alloc::{AllocError, Global};
use std::marker::Model;

/// The names that are bound, the last one first. Contracts see the list of them.
#[derive(Drop)]
pub struct Scope<'a> {
    names: Vec<&'a Name>,
}

impl<'a> Model for Scope<'a> {
    ghost use Rattle.std.specs.Prelude.{List, ℕ, map, reverse};

    ghost Value = { List (List ℕ) };

    ghost view = { λ s. reverse (map (λ name. name.now) s.names.items) };
}

impl<'a> Scope<'a> {
    /// No names.
    pub fn new(alloc: Global) -> Scope<'a>
        ensures { result ≡ [] }
    {
        Scope {
            names: Vec::new(alloc),
        }
    }

    /// Binds a name.
    pub fn bind(&mut self, name: &'a Name) -> Result<(), AllocError>
        ensures { OnOk result (self.new ≡ name.now ∷ self.old) }
    {
        self.names.push(name)?;
        Ok(())
    }

    /// Whether a name is bound.
    pub fn has(&self, name: &Name) -> bool
        ensures { result ≡ conditions.is_among name.now self.now }
    {
        for bound in &self.names {
            if name.same(bound) {
                return true;
            }
        }
        false
    }
}
