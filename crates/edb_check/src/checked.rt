//! Modules that are checked.

ghost use Rattle.std.specs.Prelude.{◌≡◌, []};
ghost use Rattle.edb_check.specs.Modules.{module_faults};

use crate::stops::module_lines;
use edb_syntax::Module;
use std::alloc::{AllocError, Global};

/// A module without faults.
#[derive(Drop)]
pub struct Checked {
    module: Module,
    pub ghost no_fault: { module_faults «module» ≡ [] },
}

impl Checked {
    ghost use Rattle.std.specs.Prelude.{◌≡◌, ◌↔◌, ℕ, IfOk};
    ghost use Rattle.std.specs.List.{Contains};
    ghost use Rattle.std.specs.List.Sorted.{IsStrictlyIncreasing};
    ghost use Rattle.edb_check.specs.Stops.{module_stops};

    // A module that has no fault.
    pub(crate) fn new(module: Module) -> Checked
        requires { module_faults «module» ≡ [] }
        ensures { result.«module» ≡ «module» }
    {
        Checked { module }
    }

    /// The module.
    pub fn module(&self) -> &Module
        ensures { result.now ≡ self.now.«module» }
    {
        &self.module
    }

    /// The lines at which a process may be stopped, those of the expressions that stand in sequences: ascending, and
    /// each once. Refused only for want of memory.
    pub fn lines(&self, alloc: Global) -> Result<Vec<u32>, AllocError>
        ensures ascending { IfOk result (λ v. IsStrictlyIncreasing v.items) }
        ensures exact { IfOk result (λ v. (l : ℕ) → Contains v.items l ↔ Contains (module_stops self.now.«module») l) }
    {
        module_lines(alloc, &self.module)
    }
}
