//! Functions and modules.

ghost use Rattle.std.specs.Prelude.{◌≡◌, IfOk, nat_le};
ghost use Rattle.edb_syntax.specs.Depths.{function_depth};

use crate::clause::{Clause, clauses_within, copy_clauses};
use edb_lang::Name;
use std::alloc::{AllocError, Global};
use std::marker::Model;

/// A function, with the line of its first token. Contracts see a `FunctionTree`.
#[derive(Drop)]
pub struct Function {
    pub name: Name,
    pub arity: u32,
    pub line: u32,
    pub clauses: Vec<Clause>,
}

/// An entry of an export, with its line: a function's name and how many parameters it has.
#[derive(Drop)]
pub struct Export {
    pub name: Name,
    pub arity: u32,
    pub line: u32,
}

/// A module, with the line of its module form: its name, what it exports, and its functions. Contracts
/// see a `ModuleTree`.
#[derive(Drop)]
pub struct Module {
    pub name: Name,
    pub line: u32,
    pub exports: Vec<Export>,
    pub functions: Vec<Function>,
}

impl Model for Function {
    ghost use Rattle.edb_syntax.specs.Syntax.{FunctionTree, clauses_of};
    ghost use Rattle.edb_syntax.specs.ModuleCodes.{coded_function};

    ghost Value = { FunctionTree };

    ghost coded = { coded_function };

    ghost view = { λ f. record { name = f.name; arity = f.arity; line = f.line; clauses = clauses_of f.clauses.items } };
}

impl Function {
    /// An equal function; refused only for want of memory.
    pub fn copy(&self, alloc: Global) -> Result<Function, AllocError>
        ensures { IfOk result (λ f. f ≡ self.now) }
    {
        Ok(Function {
            name: self.name.copy(alloc)?,
            arity: self.arity,
            line: self.line,
            clauses: copy_clauses(alloc, &self.clauses)?,
        })
    }

    /// Whether each expression, pattern and test of a guard in the function is at most so deep.
    pub fn is_within(&self, levels: u32) -> bool
        ensures { result ≡ nat_le (function_depth self.now) levels }
    {
        clauses_within(&self.clauses, levels)
    }
}

impl Export {
    /// An equal entry; refused only for want of memory.
    pub fn copy(&self, alloc: Global) -> Result<Export, AllocError>
        ensures { IfOk result (λ e. e ≡ self.now) }
    {
        Ok(Export {
            name: self.name.copy(alloc)?,
            arity: self.arity,
            line: self.line,
        })
    }
}

impl Model for Module {
    ghost use Rattle.edb_syntax.specs.Syntax.{ModuleTree};
    ghost use Rattle.edb_syntax.specs.ModuleCodes.{coded_module};

    ghost Value = { ModuleTree };

    ghost coded = { coded_module };

    ghost view = { λ m. record { name = m.name; line = m.line; exports = m.exports.items; functions = m.functions.items } };
}

impl Module {
    /// An equal module; refused only for want of memory.
    pub fn copy(&self, alloc: Global) -> Result<Module, AllocError>
        ensures { IfOk result (λ m. m ≡ self.now) }
    {
        Ok(Module {
            name: self.name.copy(alloc)?,
            line: self.line,
            exports: copy_exports(alloc, &self.exports)?,
            functions: copy_functions(alloc, &self.functions)?,
        })
    }
}

fn copy_exports(alloc: Global, exports: &[Export]) -> Result<Vec<Export>, AllocError>
    ensures { IfOk result (λ copies. copies.items ≡ exports.now) }
{
    let mut copies = Vec::new(alloc);
    for export in exports {
        copies.push(export.copy(alloc)?)?;
    }
    Ok(copies)
}

fn copy_functions(alloc: Global, functions: &[Function]) -> Result<Vec<Function>, AllocError>
    ensures { IfOk result (λ copies. copies.items ≡ functions.now) }
{
    let mut copies = Vec::new(alloc);
    for function in functions {
        copies.push(function.copy(alloc)?)?;
    }
    Ok(copies)
}
