//! The verdict on a module.

ghost use Rattle.std.specs.Prelude.{◌≡◌, [], IfOk, IfErr};
ghost use Rattle.edb_check.specs.Faults.{IsFirst};
ghost use Rattle.edb_check.specs.Modules.{module_faults};

use crate::checked::Checked;
use crate::fault::CheckFault;
use crate::modules::first_fault;
use edb_syntax::Module;
use std::alloc::{AllocError, Global};

/// Checks a module: gives it back as one without faults, or its first fault. The outer error is want of memory.
pub fn check(alloc: Global, module: Module) -> Result<Result<Checked, CheckFault>, AllocError>
    ensures accepted { IfOk result (λ r. IfOk r (λ c. (module_faults «module» ≡ []) × (c.«module» ≡ «module»))) }
    ensures refused { IfOk result (λ r. IfErr r (λ f. IsFirst f (module_faults «module»))) }
{
    match first_fault(alloc, &module)? {
        None => Ok(Ok(Checked::new(module))),
        Some(fault) => Ok(Err(fault)),
    }
}
