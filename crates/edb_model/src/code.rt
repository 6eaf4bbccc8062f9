//! The code of a run: its modules, in the order of the files.

ghost use Rattle.std.specs.Prelude.{◌≡◌, ◌++◌, ◌∷◌, ◌<◌, ◌≤◌, ◌+◌, ◌==◌, ◌&&◌, [], OnErr, IfOk, length};
ghost use Rattle.std.specs.Option.{option_copied};
ghost use Rattle.std.specs.List.{list_any};
ghost use Rattle.edb_lang.specs.TermText.{same_name};
ghost use Rattle.edb_model.specs.Lookup.{function_for, function_in, version_in, versions_in};

use edb_lang::{Function, FunctionName, Module, Name};
use std::alloc::{AllocError, Global};
use std::marker::Model;

/// A module that was accepted. Contracts see its tree.
#[derive(Drop)]
pub struct Checked {
    module: Module,
}

impl Model for Checked {
    ghost use Rattle.edb_lang.specs.Syntax.{ModuleTree};
    ghost use Rattle.edb_lang.specs.SyntaxCodes.{coded_module};

    ghost Value = { ModuleTree };

    ghost coded = { coded_module };

    ghost view = { λ c. c.«module» };
}

impl Checked {
    /// The module, for one who has accepted it.
    pub fn new(module: Module) -> Checked
        ensures { result ≡ «module» }
    {
        Checked { module }
    }

    /// The module.
    pub fn module(&self) -> &Module
        ensures { result.now ≡ self.now }
    {
        &self.module
    }
}

/// Modules in the order of their files: the k-th that has a name is version k of it. Contracts see the
/// list of their trees.
#[derive(Drop)]
pub struct Code {
    modules: Vec<Checked>,
}

impl Model for Code {
    ghost use Rattle.std.specs.Prelude.{List};
    ghost use Rattle.std.specs.Coded.{coded_list};
    ghost use Rattle.edb_lang.specs.Syntax.{ModuleTree};
    ghost use Rattle.edb_lang.specs.SyntaxCodes.{coded_module};

    ghost Value = { List ModuleTree };

    ghost coded = { coded_list coded_module };

    ghost view = { λ c. c.modules.items };
}

impl Code {
    /// No modules.
    pub fn new(alloc: Global) -> Code
        ensures { result ≡ [] }
    {
        Code {
            modules: Vec::new(alloc),
        }
    }

    /// Puts a module behind the others and tells which version of its name it is; where memory is
    /// refused the code stays as it was.
    pub fn add(&mut self, module: Checked) -> Result<u32, AllocError>
        requires { length self.old < 4294967295 }
        ensures ok { IfOk result (λ k. (self.new ≡ self.old ++ «module» ∷ []) × (k ≡ versions_in self.old «module».name + 1)) }
        ensures err { OnErr result (self.new ≡ self.old) }
    {
        let version = self.versions(&module.module.name) + 1;
        self.modules.push(module)?;
        Ok(version)
    }

    /// Whether some module has this name.
    pub fn holds(&self, name: &Name) -> bool
        ensures { result ≡ list_any (λ m. same_name m.name name.now) self.now }
    {
        self.modules
            .iter()
            .any(|checked| checked.module.name.same(name))
    }

    /// How many modules have this name.
    fn versions(&self, name: &Name) -> u32
        requires { length self.now < 4294967295 }
        ensures count { result ≡ versions_in self.now name.now }
        ensures bound { result ≤ length self.now }
    {
        let mut count = 0;
        for checked in &self.modules {
            if checked.module.name.same(name) {
                count += 1;
            }
        }
        count
    }

    /// The function that a call names, in this version of the module: one from outside the module has to
    /// be exported. None where there is no such version or function.
    pub fn function(
        &self,
        module: &Name,
        version: u32,
        inside: bool,
        name: &Name,
        arity: usize,
    ) -> Option<&Function>
        ensures { option_copied result ≡ function_for self.now «module».now version inside name.now arity }
    {
        let found = self.version(module, version)?;
        if inside || is_exported(&found.exports, name, arity) {
            find_function(&found.functions, name, arity)
        } else {
            None
        }
    }

    /// The module that is this version of the name.
    fn version(&self, name: &Name, version: u32) -> Option<&Module>
        ensures { option_copied result ≡ version_in self.now name.now version }
    {
        let mut left = version;
        for checked in &self.modules {
            if checked.module.name.same(name) {
                if left == 1 {
                    return Some(&checked.module);
                }
                left = left.saturating_sub(1);
            }
        }
        None
    }
}

/// Whether these exports have the name with this arity.
fn is_exported(names: &[FunctionName], name: &Name, arity: usize) -> bool
    ensures { result ≡ list_any (λ e. same_name e.name name.now && e.arity == arity) names.now }
{
    names.iter().any(|found| found.name.same(name) && found.arity as usize == arity)
}

/// The function of this name and arity.
fn find_function<'a>(functions: &'a [Function], name: &Name, arity: usize) -> Option<&'a Function>
    ensures { option_copied result ≡ function_in functions.entry.now name.now arity }
{
    for function in functions {
        if function.name.same(name) && function.parameters.len() == arity {
            return Some(function);
        }
    }
    None
}
