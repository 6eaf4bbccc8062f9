//! The functions of a module, by name and arity.

ghost use Rattle.std.specs.Prelude.{◌≡◌, [], codes, IfOk};
ghost use Rattle.edb_table.specs.Marking.{is_auto};
ghost use Rattle.edb_check.specs.Functions.{keys_of, is_defined, is_callable};
ghost use Rattle.edb_check.specs.Modules.{duplicates};
ghost use Rattle.edb_check.specs.Walking.{Walks, only};

use crate::fault::CheckKind;
use crate::walk::Walk;
use edb_lang::Name;
use edb_syntax::Function;
use edb_table::marks_of;
use std::alloc::{AllocError, Global};
use std::collections::BTreeSet;
use std::marker::Model;

/// The functions of a module. Contracts see a list of `Key`.
#[derive(Drop)]
pub(crate) struct Known<'a> {
    functions: &'a [Function],
    keys: BTreeSet<(&'a str, usize)>,
}

impl<'a> Model for Known<'a> {
    ghost use Rattle.std.specs.Prelude.{List};
    ghost use Rattle.edb_table.specs.Keys.{Key};

    ghost Value = { List Key };

    ghost use Rattle.edb_check.specs.Functions.{keys_of};
    ghost use Rattle.edb_check.specs.Kept.{Kept};

    ghost view = { λ k. keys_of k.functions.now };

    ghost invariant = { λ k. Kept k.keys (keys_of k.functions.now) };
}

impl<'a> Known<'a> {
    /// The functions of a module; tells each that is defined again.
    pub(crate) fn new(
        alloc: Global,
        functions: &'a [Function],
        walk: &mut Walk<'a>,
    ) -> Result<Known<'a>, AllocError>
        ensures known { IfOk result (λ k. k ≡ keys_of functions.now) }
        ensures walks { IfOk result (λ k. Walks walk.old walk.new (only (duplicates [] functions.now))) }
    {
        let mut keys = BTreeSet::new(alloc);
        for function in functions {
            let is_new = keys.insert((function.name.as_str(), function.arity as usize))?;
            walk.report_if(!is_new, function.line, CheckKind::Duplicate);
        }
        Ok(Known { functions, keys })
    }

    /// Whether there is a function of this name and arity.
    pub(crate) fn has(&self, name: &'a Name, arity: usize) -> bool
        ensures { result ≡ is_defined self.now (name.now, arity) }
    {
        self.keys.contains(&(name.as_str(), arity))
    }

    /// Whether a name may be called with so many arguments without a module's name.
    pub(crate) fn is_callable(&self, name: &'a Name, arity: usize) -> bool
        ensures { result ≡ is_callable self.now (name.now, arity) }
    {
        self.has(name, arity) || is_imported(name, arity)
    }
}

// Whether a name is that of an imported built-in with so many parameters.
fn is_imported(name: &Name, arity: usize) -> bool
    ensures { result ≡ is_auto (codes "erlang", (name.now, arity)) }
{
    match u8::try_from(arity) {
        Ok(arity) => marks_of("erlang", name.as_str(), arity).auto,
        Err(_) => false,
    }
}
