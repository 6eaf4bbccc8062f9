//! The walk through a module.

ghost use Rattle.std.specs.Prelude.{◌≡◌, [], None, OnOk, IfOk};
ghost use Rattle.edb_check.specs.Modules as modules;
ghost use Rattle.edb_check.specs.Modules.{exports_faults, functions_faults, module_faults};
ghost use Rattle.edb_check.specs.Rules.{heads_faults};
ghost use Rattle.edb_check.specs.Walking.{Walks, only, least};

use crate::fault::{CheckFault, CheckKind};
use crate::known::Known;
use crate::walk::Walk;
use edb_lang::Name;
use edb_syntax::{Export, Function, Module};
use std::alloc::{AllocError, Global};

// Whether a name is that of a module with built-ins.
fn is_taken(name: &Name) -> bool
    ensures { result ≡ modules.is_taken name.now }
{
    let name = name.as_str();
    name == "erlang" || name == "lists" || name == "io" || name == "int"
}

impl<'a> Walk<'a> {
    // Tells each export of a function that isn't there.
    fn exports(&mut self, known: &Known<'a>, exports: &'a [Export])
        ensures { Walks self.old self.new (only (exports_faults known.now exports.now)) }
    {
        for export in exports {
            let is_known = known.has(&export.name, export.arity as usize);
            self.report_if(!is_known, export.line, CheckKind::NotExported);
        }
    }

    // Goes through a function, which sees no variables but its own.
    fn function(&mut self, known: &Known<'a>, function: &'a Function) -> Result<(), AllocError>
        ensures { OnOk result (self.new.first ≡ least self.old.first (heads_faults known.now [] function.now.clauses)) }
    {
        self.leave(0);
        self.leave_names(0);
        self.heads(known, &function.clauses)?;
        Ok(())
    }

    // Goes through the functions of a module.
    fn functions(&mut self, known: &Known<'a>, functions: &'a [Function]) -> Result<(), AllocError>
        ensures { OnOk result (self.new.first ≡ least self.old.first (functions_faults known.now functions.now)) }
    {
        for function in functions {
            self.function(known, function)?;
        }
        Ok(())
    }
}

/// The first fault of a module, where it has one; refused only for want of memory.
pub(crate) fn first_fault(alloc: Global, module: &Module) -> Result<Option<CheckFault>, AllocError>
    ensures { IfOk result (λ o. o ≡ least None (module_faults «module».now)) }
{
    let mut walk = Walk::new(alloc);
    walk.report_if(is_taken(&module.name), module.line, CheckKind::Duplicate);
    let known = Known::new(alloc, &module.functions, &mut walk)?;
    walk.exports(&known, &module.exports);
    walk.functions(&known, &module.functions)?;
    Ok(walk.first)
}
