//! Searches that halve.

ghost use Rattle.std.specs.Prelude.{◌≡◌, ◌≤◌, true, false, length, map, is_some};
ghost use Rattle.std.specs.List.{filter, slice_get};
ghost use Rattle.std.specs.List.Sorted.{IsSortedByKey, IsPartitionPoint};
ghost use Rattle.std.specs.Option.{option_map};
ghost use Rattle.std.specs.Ordering.{nat_cmp, is_lt};
ghost use Rattle.edb_syntax.specs.FunForms.{place_of};
ghost use Rattle.edb_units.specs.Forms.{form_of};
ghost use Rattle.edb_units.specs.Keys.{signature_cmp, function_key, export_key};
ghost use Rattle.edb_units.specs.Orders.{has};

use crate::form::Form;
use crate::order::compare;
use edb_lang::Name;
use edb_syntax::{Export, Function};

/// The first of these functions with this name and arity.
pub(crate) fn find_function<'a>(
    functions: &[&'a Function],
    name: &Name,
    arity: u32,
) -> Option<&'a Function>
    requires { IsSortedByKey function_key signature_cmp (map (λ f. f.now) functions.now) }
    ensures { option_map (λ f. f.now) result ≡ slice_get (filter (has signature_cmp function_key (name.now, arity)) (map (λ f. f.now) functions.now)) 0 }
{
    let place = function_place(functions, name, arity);
    if place >= functions.len() {
        return None;
    }
    let function = functions[place];
    if compare(&function.name, function.arity, name, arity).is_eq() {
        return Some(function);
    }
    None
}

/// How many of them come before those that are wanted.
fn function_place(functions: &[&Function], name: &Name, arity: u32) -> usize
    requires { IsSortedByKey function_key signature_cmp (map (λ f. f.now) functions.now) }
    ensures bound { result ≤ length functions.now }
    ensures parted { IsPartitionPoint (λ x. is_lt (signature_cmp (function_key x.now) (name.now, arity)) ≡ true) (λ x. is_lt (signature_cmp (function_key x.now) (name.now, arity)) ≡ false) functions.now result }
{
    functions.partition_point(|item| compare(&item.name, item.arity, name, arity).is_lt())
}

/// Whether one of these exports has this name and arity.
pub(crate) fn holds_export(exports: &[&Export], name: &Name, arity: u32) -> bool
    requires { IsSortedByKey export_key signature_cmp (map (λ e. e.now) exports.now) }
    ensures { result ≡ is_some (slice_get (filter (has signature_cmp export_key (name.now, arity)) (map (λ e. e.now) exports.now)) 0) }
{
    let place = export_place(exports, name, arity);
    if place >= exports.len() {
        return false;
    }
    let export = exports[place];
    compare(&export.name, export.arity, name, arity).is_eq()
}

/// How many of them come before those that are wanted.
fn export_place(exports: &[&Export], name: &Name, arity: u32) -> usize
    requires { IsSortedByKey export_key signature_cmp (map (λ e. e.now) exports.now) }
    ensures bound { result ≤ length exports.now }
    ensures parted { IsPartitionPoint (λ x. is_lt (signature_cmp (export_key x.now) (name.now, arity)) ≡ true) (λ x. is_lt (signature_cmp (export_key x.now) (name.now, arity)) ≡ false) exports.now result }
{
    exports.partition_point(|item| compare(&item.name, item.arity, name, arity).is_lt())
}

/// The first of these fun forms at this place.
pub(crate) fn find_form<'a>(forms: &[Form<'a>], index: u32) -> Option<Form<'a>>
    requires { IsSortedByKey place_of nat_cmp (map form_of forms.now) }
    ensures { option_map form_of result ≡ slice_get (filter (has nat_cmp place_of index) (map form_of forms.now)) 0 }
{
    let place = form_place(forms, index);
    if place >= forms.len() {
        return None;
    }
    let form = forms[place];
    if form.index() == index {
        return Some(form);
    }
    None
}

/// How many of them come before those that are wanted.
fn form_place(forms: &[Form<'_>], index: u32) -> usize
    requires { IsSortedByKey place_of nat_cmp (map form_of forms.now) }
    ensures bound { result ≤ length forms.now }
    ensures parted { IsPartitionPoint (λ x. is_lt (nat_cmp (place_of (form_of x)) index) ≡ true) (λ x. is_lt (nat_cmp (place_of (form_of x)) index) ≡ false) forms.now result }
{
    forms.partition_point(|item| item.index() < index)
}
