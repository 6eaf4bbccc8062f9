//! A module, ready to be run.

ghost use Rattle.std.specs.Prelude.{◌≡◌, IfOk};
ghost use Rattle.std.specs.Option.{option_map};
ghost use Rattle.edb_syntax.specs.FunForms.{form_at};
ghost use Rattle.edb_syntax.specs.Lookup.{function_in, exports as is_exported};
ghost use Rattle.edb_units.specs.Forms.{form_of};

use crate::collect::forms_of;
use crate::form::Form;
use crate::order::{exports_in_order, forms_in_order, functions_in_order};
use crate::search::{find_form, find_function, holds_export};
use edb_lang::Name;
use edb_syntax::{Export, Function, Module};
use std::alloc::{AllocError, Global};
use std::marker::Model;

/// A module with its functions, exports and fun forms in the order in which they are searched. Contracts see the
/// module's tree.
#[derive(Drop)]
pub struct Unit<'a> {
    module: &'a Module,
    functions: Vec<&'a Function>,
    exports: Vec<&'a Export>,
    forms: Vec<Form<'a>>,
}

impl<'a> Model for Unit<'a> {
    ghost use Rattle.std.specs.Prelude.{map};
    ghost use Rattle.edb_syntax.specs.Syntax.{ModuleTree};
    ghost use Rattle.edb_syntax.specs.ModuleCodes.{coded_module};
    ghost use Rattle.edb_units.specs.Forms.{form_of as form_seen};
    ghost use Rattle.edb_units.specs.Ready.{IsReady};

    ghost Value = { ModuleTree };

    ghost coded = { coded_module };

    ghost view = { λ u. u.«module».now };

    ghost invariant = { λ u. IsReady u.«module».now (map (λ f. f.now) u.functions.items) (map (λ e. e.now) u.exports.items) (map form_seen u.forms.items) };
}

impl<'a> Unit<'a> {
    /// The module, ready to be searched. `AllocError` only if out of memory.
    pub fn new(alloc: Global, module: &'a Module) -> Result<Unit<'a>, AllocError>
        ensures { IfOk result (λ u. u ≡ «module».now) }
    {
        let functions = functions_in_order(alloc, &module.functions)?;
        let exports = exports_in_order(alloc, &module.exports)?;
        let forms = forms_in_order(forms_of(alloc, &module.functions)?)?;
        Ok(Unit {
            module,
            functions,
            exports,
            forms,
        })
    }

    /// The module.
    pub fn module(&self) -> &'a Module
        ensures { result.now ≡ self.now }
    {
        self.module
    }

    /// Its name.
    pub fn name(&self) -> &'a Name
        ensures { result.now ≡ self.now.name }
    {
        let module = self.module;
        &module.name
    }

    /// The function with this name and arity, the first if there are more.
    pub fn function(&self, name: &Name, arity: u32) -> Option<&'a Function>
        ensures { option_map (λ f. f.now) result ≡ function_in self.now.functions name.now arity }
    {
        find_function(&self.functions, name, arity)
    }

    /// Whether the module exports a function of this name and arity.
    pub fn exports(&self, name: &Name, arity: u32) -> bool
        ensures { result ≡ is_exported self.now name.now arity }
    {
        holds_export(&self.exports, name, arity)
    }

    /// The fun form at this place among those of the module. A form that names a function of another module has a
    /// place too, and `None` is found there.
    pub fn form(&self, index: u32) -> Option<Form<'a>>
        ensures { option_map form_of result ≡ form_at self.now index }
    {
        find_form(&self.forms, index)
    }
}
