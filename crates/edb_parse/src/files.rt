//! Files: forms one behind the other.

ghost use Rattle.std.specs.Prelude.{◌≡◌, ◌≤◌, ◌<◌, ◌+◌, take, drop, length, IfOk};
ghost use Rattle.edb_scan.specs.Parting.{longest_file};
ghost use Rattle.edb_grammar.specs.Toks as grammar;
ghost use Rattle.edb_grammar.specs.FileReading.{form_length, read_file};
ghost use Rattle.edb_parse.specs.declared.files.NoModule.TheVariants.{Memory};
ghost use Rattle.edb_parse.specs.FileViews.{GivesFirst, GivesModule, GoesOn};

use crate::attributes::is_dot;
use crate::cursor::{Cursor, funs_with};
use crate::fault::FormFault;
use crate::forms::{Form, read_form};
use crate::unread::Unread;
use edb_lang::Name;
use edb_scan::Placed;
use edb_syntax::Module;
use std::alloc::{AllocError, AllocFailed, Global};

/// Why no module was read.
#[derive(Clone, Copy, Debug, PartialEq, Eq, Drop)]
pub enum NoModule {
    /// There is no memory for it.
    Memory,
    /// This form has no tree.
    Fault(FormFault),
}

impl From<AllocError> for NoModule {
    ghost from_gives = { λ _ r. r ≡ Memory };

    fn from(_error: AllocError) -> NoModule {
        NoModule::Memory
    }
}

impl<T: Drop> From<AllocFailed<T>> for NoModule {
    ghost from_gives = { λ _ r. r ≡ Memory };

    fn from(_error: AllocFailed<T>) -> NoModule {
        NoModule::Memory
    }
}

/// The first form, up to its dot or all where there is none, and what stands behind it.
fn split_form(tokens: &[Placed]) -> (&[Placed], &[Placed])
    ensures form { result.0.now ≡ take (form_length tokens.now) tokens.now }
    ensures rest { result.1.now ≡ drop (form_length tokens.now) tokens.now }
{
    for (index, placed) in tokens.iter().enumerate() {
        if is_dot(&placed.token) {
            return tokens.split_at(index + 1);
        }
    }
    tokens.split_at(tokens.len())
}

/// How many `fun`s stand before what comes behind these tokens, before which so many stand.
fn funs_behind(funs: u32, tokens: &[Placed]) -> u32
    requires { funs + length tokens.now ≤ 4_294_967_295 }
    ensures count { result ≡ grammar.funs_behind funs tokens.now }
    ensures few { result ≤ funs + length tokens.now }
{
    let mut count = funs;
    for placed in tokens {
        count = funs_with(count, &placed.token);
    }
    count
}

/// The line and the name of the module form, which these tokens have to be; or the fault of the first form.
fn naming(alloc: Global, form: &[Placed]) -> Result<(u32, Name), NoModule>
    requires { length form.now ≤ longest_file }
    ensures { GivesFirst result form.now }
{
    let tokens = Cursor {
        tokens: form,
        funs: 0,
    };
    let fault = FormFault {
        form: 1,
        line: tokens.line(),
    };
    match read_form(alloc, tokens) {
        Ok(Form::Names { line, name }) => Ok((line, name)),
        Ok(Form::Exports(_)) => Err(NoModule::Fault(fault)),
        Ok(Form::Skipped) => Err(NoModule::Fault(fault)),
        Ok(Form::Defines(_)) => Err(NoModule::Fault(fault)),
        Err(Unread::Refused) => Err(NoModule::Fault(fault)),
        Err(Unread::Memory) => Err(NoModule::Memory),
    }
}

/// Adds to the module what a form behind the module form says, the form of this number, before which so
/// many `fun`s stand; answers how many stand before the next one, or the fault of this form.
fn add_form(
    alloc: Global,
    number: u64,
    funs: u32,
    form: &[Placed],
    module: &mut Module,
) -> Result<u32, NoModule>
    requires { funs + length form.now ≤ 4_294_967_295 }
    ensures adds { GoesOn result number funs form.now module.old module.new }
    ensures few { IfOk result (λ k. k ≤ funs + length form.now) }
{
    let tokens = Cursor { tokens: form, funs };
    let fault = FormFault {
        form: number,
        line: tokens.line(),
    };
    match read_form(alloc, tokens) {
        Ok(Form::Exports(entries)) => {
            let mut entries = entries;
            module.exports.append(&mut entries)?;
            Ok(funs)
        }
        Ok(Form::Skipped) => Ok(funs),
        Ok(Form::Defines(function)) => {
            module.functions.push(function)?;
            Ok(funs_behind(funs, form))
        }
        Ok(Form::Names { .. }) => Err(NoModule::Fault(fault)),
        Err(Unread::Refused) => Err(NoModule::Fault(fault)),
        Err(Unread::Memory) => Err(NoModule::Memory),
    }
}

/// The module that these tokens, one at least, are; or the first form that has no tree.
pub fn read_module(alloc: Global, tokens: &[Placed]) -> Result<Module, NoModule>
    requires some { 0 < length tokens.now }
    requires few { length tokens.now ≤ longest_file }
    ensures { GivesModule result (read_file tokens.now) }
{
    let (form, behind) = split_form(tokens);
    let (line, name) = naming(alloc, form)?;
    let mut module = Module {
        name,
        line,
        exports: Vec::new(alloc),
        functions: Vec::new(alloc),
    };
    let mut number = 2;
    let mut funs = 0;
    let mut rest = behind;
    while !rest.is_empty() {
        let (form, behind) = split_form(rest);
        funs = add_form(alloc, number, funs, form, &mut module)?;
        number += 1;
        rest = behind;
    }
    Ok(module)
}
