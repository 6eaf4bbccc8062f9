//! Lists in the order in which they are searched.

ghost use Rattle.std.specs.Prelude.{◌≡◌, IfOk, map};
ghost use Rattle.std.specs.Ordering.{nat_cmp};
ghost use Rattle.edb_syntax.specs.FunForms.{place_of};
ghost use Rattle.edb_units.specs.Forms.{form_of};
ghost use Rattle.edb_units.specs.Keys.{signature_cmp, function_key, export_key};
ghost use Rattle.edb_units.specs.Orders.{IsInOrder};

use crate::form::Form;
use edb_lang::Name;
use edb_syntax::{Export, Function};
use std::alloc::{AllocError, Global};
use std::cmp::Ordering;

/// Names by their bytes, and what has one name by the arity.
pub(crate) fn compare(name: &Name, arity: u32, other: &Name, other_arity: u32) -> Ordering
    ensures { result ≡ signature_cmp (name.now, arity) (other.now, other_arity) }
{
    name.cmp(other).then(arity.cmp(&other_arity))
}

/// Functions by name and arity. `AllocError` only if out of memory, here and in all that follows.
pub(crate) fn functions_in_order<'a>(
    alloc: Global,
    functions: &'a [Function],
) -> Result<Vec<&'a Function>, AllocError>
    ensures { IfOk result (λ ordered. IsInOrder signature_cmp function_key functions.now (map (λ f. f.now) ordered.items)) }
{
    let mut ordered = Vec::with_capacity(alloc, functions.len())?;
    for function in functions {
        ordered.push(function)?;
    }
    ordered.sort_by(|first, second| {
        compare(&first.name, first.arity, &second.name, second.arity)
    })?;
    Ok(ordered)
}

/// Exports by name and arity.
pub(crate) fn exports_in_order<'a>(
    alloc: Global,
    exports: &'a [Export],
) -> Result<Vec<&'a Export>, AllocError>
    ensures { IfOk result (λ ordered. IsInOrder signature_cmp export_key exports.now (map (λ e. e.now) ordered.items)) }
{
    let mut ordered = Vec::with_capacity(alloc, exports.len())?;
    for export in exports {
        ordered.push(export)?;
    }
    ordered.sort_by(|first, second| {
        compare(&first.name, first.arity, &second.name, second.arity)
    })?;
    Ok(ordered)
}

/// Fun forms by their places; those of a module that was parsed stand so already.
pub(crate) fn forms_in_order<'a>(forms: Vec<Form<'a>>) -> Result<Vec<Form<'a>>, AllocError>
    ensures { IfOk result (λ ordered. IsInOrder nat_cmp place_of (map form_of forms.entry.items) (map form_of ordered.items)) }
{
    let mut ordered = forms;
    ordered.sort_by(|first, second| first.index().cmp(&second.index()))?;
    Ok(ordered)
}
