//! The current versions of modules.

ghost use Rattle.std.specs.Prelude.{◌≡◌, IfOk};
ghost use Rattle.edb_syntax.specs.Lookup.{first_versions};
ghost use Rattle.edb_moves.specs.Versions.{version_beside, version_for};

use edb_check::Code;
use edb_lang::Name;
use std::alloc::{AllocError, Global};
use std::marker::Model;

/// The current version of each module. Contracts see a list of names, each with a version, in the order of the files.
#[derive(Drop)]
pub struct Versions {
    pairs: Vec<(Name, u32)>,
}

impl Model for Versions {
    ghost use Rattle.std.specs.Prelude.{ℕ, List};

    ghost Value = { List (List ℕ × ℕ) };

    ghost view = { λ v. v.pairs.items };
}

impl Versions {
    /// Version 1 of each module. `AllocError` only if out of memory.
    pub fn new(alloc: Global, code: &Code) -> Result<Versions, AllocError>
        ensures { IfOk result (λ v. v ≡ first_versions code.now) }
    {
        let mut pairs = Vec::new(alloc);
        for checked in code.modules() {
            pairs.push((checked.module().name.copy(alloc)?, 1))?;
        }
        Ok(Versions { pairs })
    }

    /// The version of this module that is current; `None` if there is no such module.
    pub fn current(&self, module: &Name) -> Option<u32>
        ensures { result ≡ version_beside «module».now self.now }
    {
        beside(&self.pairs, module)
    }

    /// The version of this module that a call into it runs, where these Bodies run, the innermost one first, each of
    /// this module and version: that of the innermost Body of the module, and else the current one. `None` if there is
    /// neither.
    #[tactic(auto, using(crate::proofs::Beside::by_a_body, crate::proofs::Beside::by_the_current))]
    pub fn choose(&self, running: &[(Name, u32)], module: &Name) -> Option<u32>
        ensures { result ≡ version_for self.now running.now «module».now }
    {
        match beside(running, module) {
            Some(version) => Some(version),
            None => self.current(module),
        }
    }

    /// Equal versions. `AllocError` only if out of memory.
    pub fn copy(&self, alloc: Global) -> Result<Versions, AllocError>
        ensures { IfOk result (λ v. v ≡ self.now) }
    {
        let mut pairs = Vec::new(alloc);
        for pair in &self.pairs {
            pairs.push((pair.0.copy(alloc)?, pair.1))?;
        }
        Ok(Versions { pairs })
    }
}

/// The version that stands beside the first of this name.
fn beside(pairs: &[(Name, u32)], module: &Name) -> Option<u32>
    ensures { result ≡ version_beside «module».now pairs.now }
{
    for pair in pairs {
        if pair.0.same(module) {
            return Some(pair.1);
        }
    }
    None
}
