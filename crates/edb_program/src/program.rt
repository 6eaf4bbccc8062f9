//! All modules of a run, ready to be run.

ghost use Rattle.std.specs.Prelude.{◌≡◌, ◌≤◌, true, false, IfOk, length};
ghost use Rattle.std.specs.List.Sorted.{IsSortedByKey, IsPartitionPoint};
ghost use Rattle.std.specs.Option.{option_map};
ghost use Rattle.std.specs.Ordering.{is_lt};
ghost use Rattle.edb_syntax.specs.Lookup.{version_in};
ghost use Rattle.edb_program.specs.Names.{name_cmp, module_name};
ghost use Rattle.edb_program.specs.Searched.{version_among};
ghost use Rattle.edb_units.specs.Orders.{IsInOrder};

use edb_check::Code;
use edb_lang::Name;
use edb_units::Unit;
use std::alloc::{AllocError, Global};
use std::marker::Model;

/// The code of a run, with a unit for each of its modules. Contracts see what they see of the code: the list of the
/// modules' trees, in the order of their files.
#[derive(Drop)]
pub struct Program<'a> {
    code: &'a Code,
    units: Vec<Unit<'a>>,
}

impl<'a> Model for Program<'a> {
    ghost use Rattle.std.specs.Prelude.{List};
    ghost use Rattle.std.specs.Coded.{coded_list};
    ghost use Rattle.edb_program.specs.Names.{name_cmp as by_name, module_name as name_of};
    ghost use Rattle.edb_syntax.specs.ModuleCodes.{coded_module};
    ghost use Rattle.edb_syntax.specs.Syntax.{ModuleTree};
    ghost use Rattle.edb_units.specs.Orders.{IsInOrder};

    ghost Value = { List ModuleTree };

    ghost coded = { coded_list coded_module };

    ghost view = { λ p. p.code.now };

    ghost invariant = { λ p. IsInOrder by_name name_of p.code.now p.units.items };
}

impl<'a> Program<'a> {
    /// The code, ready to be searched. `AllocError` only if out of memory.
    pub fn new(alloc: Global, code: &'a Code) -> Result<Program<'a>, AllocError>
        ensures { IfOk result (λ p. p ≡ code.now) }
    {
        let units = units_in_order(alloc, code)?;
        Ok(Program { code, units })
    }

    /// The code that it was made of.
    pub fn code(&self) -> &'a Code
        ensures { result.now ≡ self.now }
    {
        self.code
    }

    /// The module with this name that is this version of it, counted from 1; `None` if there is no such version.
    pub fn unit(&self, module: &Name, version: u32) -> Option<&Unit<'a>>
        ensures { option_map (λ u. u.now) result ≡ version_in self.now «module».now version }
    {
        find_unit(&self.units, module, version)
    }
}

/// The units by their names, those of one name in the order of their files. `AllocError` only if out of memory.
fn units_in_order<'a>(alloc: Global, code: &'a Code) -> Result<Vec<Unit<'a>>, AllocError>
    ensures { IfOk result (λ ordered. IsInOrder name_cmp module_name code.now ordered.items) }
{
    let mut ordered = Vec::new(alloc);
    for checked in code.modules() {
        ordered.push(Unit::new(alloc, checked.module())?)?;
    }
    ordered.sort_by(|first, second| first.name().cmp(second.name()))?;
    Ok(ordered)
}

/// The unit of this name that is this version, among units in the order of their names.
fn find_unit<'s, 'a>(units: &'s [Unit<'a>], name: &Name, version: u32) -> Option<&'s Unit<'a>>
    requires { IsSortedByKey module_name name_cmp units.now }
    ensures { option_map (λ u. u.now) result ≡ version_among units.now name.now version }
{
    if version == 0 {
        return None;
    }
    let place = unit_place(units, name) + (version as usize - 1);
    if place >= units.len() {
        return None;
    }
    let unit = &units[place];
    if unit.name().cmp(name).is_eq() {
        return Some(unit);
    }
    None
}

/// How many units come before those of this name.
fn unit_place(units: &[Unit<'_>], name: &Name) -> usize
    requires { IsSortedByKey module_name name_cmp units.now }
    ensures bound { result ≤ length units.now }
    ensures parted { IsPartitionPoint (λ x. is_lt (name_cmp (module_name x) name.now) ≡ true) (λ x. is_lt (name_cmp (module_name x) name.now) ≡ false) units.now result }
{
    units.partition_point(|unit| unit.name().cmp(name).is_lt())
}
