//! Scan, parse and check of a text.

ghost use Rattle.std.specs.Prelude.{◌≡◌, IfOk, IfErr, MatchResult};
ghost use Rattle.edb_syntax.specs.Syntax.{ModuleTree};
ghost use Rattle.edb_check.specs.declared.checked.Checked.{Checked};
ghost use Rattle.edb_verdict.specs.declared.fault.ModuleFault.{ModuleFault};
ghost use Rattle.edb_verdict.specs.Verdicts.{HasFault, IsAccepted, IsModule};

use crate::fault::ModuleFault;
use edb_check::{Checked, check};
use edb_parse::parse;
use edb_scan::scan;
use edb_syntax::Module;
use std::alloc::{AllocError, Global};

/// The module that a text is, or the first fault of its scan, else the first form that is none; refused only for want
/// of memory.
fn read_module(alloc: Global, text: &[u8]) -> Result<Result<Module, ModuleFault>, AllocError>
    ensures { IfOk result (λ r. MatchResult r (λ m. IsModule text.now m) (λ fault. HasFault text.now fault)) }
{
    match scan(alloc, text)? {
        Ok(tokens) => match parse(alloc, &tokens)? {
            Ok(module) => Ok(Ok(module)),
            Err(fault) => Ok(Err(ModuleFault::Form(fault))),
        },
        Err(fault) => Ok(Err(ModuleFault::Scan(fault))),
    }
}

/// The text's module, where it has no fault; refused only for want of memory.
fn judge(alloc: Global, text: &[u8]) -> Result<Result<Checked, ModuleFault>, AllocError>
    ensures { IfOk result (λ r. MatchResult r (λ c. IsAccepted text.now c.«module») (λ fault. HasFault text.now fault)) }
{
    match read_module(alloc, text)? {
        Ok(module) => match check(alloc, module)? {
            Ok(checked) => Ok(Ok(checked)),
            Err(fault) => Ok(Err(ModuleFault::Check(fault))),
        },
        Err(fault) => Ok(Err(fault)),
    }
}

/// The verdict on a text: its module, which has no fault, or its first fault: that of its scan, else the first form
/// that is none, else the first fault of the checker by line and, on one line, by kind.
///
/// `AllocError` is want of memory alone.
pub fn verdict(alloc: Global, text: &[u8]) -> Result<Result<Checked, ModuleFault>, AllocError>
    // What is answered is so.
    ensures accepted { IfOk result (λ r. IfOk r (λ c. IsAccepted text.now c.«module»)) }
    ensures refused { IfOk result (λ r. IfErr r (λ fault. HasFault text.now fault)) }
    // Each module and each fault is answered, but for want of memory.
    ensures each_module { (m : ModuleTree) → IsAccepted text.now m → IfOk result (λ r. MatchResult r (λ c. c.«module» ≡ m) (λ _. ⊥)) }
    ensures each_fault { (fault : ModuleFault) → HasFault text.now fault → IfOk result (λ r. MatchResult r (λ _. ⊥) (λ found. found ≡ fault)) }
{
    judge(alloc, text)
}
