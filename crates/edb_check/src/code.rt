//! The code of a run: its modules, in the order of their files.

ghost use Rattle.std.specs.Prelude.{◌≡◌, ◌++◌, ◌∷◌, ◌<◌, ◌≤◌, ◌+◌, [], IfOk, OnErr, length, map};
ghost use Rattle.std.specs.List.{list_any};
ghost use Rattle.edb_lang.specs.TermText.{same_name};
ghost use Rattle.edb_syntax.specs.Lookup.{versions_in};

use crate::checked::Checked;
use edb_lang::Name;
use std::alloc::{AllocError, Global};
use std::marker::Model;

/// Modules without faults in the order of their files: the k-th that has a name is version k of it. Contracts see the
/// list of their trees.
#[derive(Drop)]
pub struct Code {
    modules: Vec<Checked>,
}

impl Model for Code {
    ghost use Rattle.std.specs.Prelude.{List, map};
    ghost use Rattle.std.specs.Coded.{coded_list};
    ghost use Rattle.edb_syntax.specs.Syntax.{ModuleTree};
    ghost use Rattle.edb_syntax.specs.ModuleCodes.{coded_module};

    ghost Value = { List ModuleTree };

    ghost coded = { coded_list coded_module };

    ghost view = { λ c. map (λ x. x.«module») c.modules.items };
}

impl Code {
    /// No modules.
    pub fn new(alloc: Global) -> Code
        ensures { result ≡ [] }
    {
        Code {
            modules: Vec::new(alloc),
        }
    }

    /// Adds a module as the last one, and gives the version of its name that it is, counted from 1. When out of
    /// memory, which is the only error, the code stays as it was.
    pub fn add(&mut self, module: Checked) -> Result<u32, AllocError>
        requires { length self.old < 4294967295 }
        ensures ok { IfOk result (λ k. (self.new ≡ self.old ++ «module».«module» ∷ []) × (k ≡ versions_in self.old «module».«module».name + 1)) }
        ensures err { OnErr result (self.new ≡ self.old) }
    {
        let version = self.versions(&module.module().name) + 1;
        self.modules.push(module)?;
        Ok(version)
    }

    /// The modules, in the order of their files.
    pub fn modules(&self) -> &[Checked]
        ensures { map (λ x. x.«module») result.now ≡ self.now }
    {
        &self.modules
    }

    /// Whether some module has this name.
    pub fn holds(&self, name: &Name) -> bool
        ensures { result ≡ list_any (λ x. same_name x.name name.now) self.now }
    {
        self.modules
            .iter()
            .any(|checked| checked.module().name.same(name))
    }

    // How many modules have this name.
    fn versions(&self, name: &Name) -> u32
        requires { length self.now < 4294967295 }
        ensures count { result ≡ versions_in self.now name.now }
        ensures bound { result ≤ length self.now }
    {
        let mut count = 0;
        for checked in &self.modules {
            if checked.module().name.same(name) {
                count += 1;
            }
        }
        count
    }
}
