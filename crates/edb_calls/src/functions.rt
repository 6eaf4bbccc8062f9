//! The functions of a module, by as many arguments as there are.

ghost use Rattle.std.specs.Prelude.{◌≡◌, None, if◌then◌else◌};
ghost use Rattle.std.specs.Option.{option_map};
ghost use Rattle.edb_syntax.specs.Lookup.{function_in, exports};

use edb_lang::Name;
use edb_syntax::Function;
use edb_units::Unit;

/// The function of this name with so many parameters.
pub(crate) fn function_of<'a>(unit: &'a Unit<'a>, name: &Name, arity: usize) -> Option<&'a Function>
    ensures { option_map (λ f. f.now) result ≡ function_in unit.entry.now.functions name.now arity }
{
    match u32::try_from(arity) {
        Ok(arity) => unit.function(name, arity),
        Err(_) => function_in_turn(&unit.module().functions, name, arity),
    }
}

/// The same, reading the functions one by one.
fn function_in_turn<'a>(
    functions: &'a [Function],
    name: &Name,
    arity: usize,
) -> Option<&'a Function>
    ensures { option_map (λ f. f.now) result ≡ function_in functions.entry.now name.now arity }
{
    for function in functions {
        if function.name.same(name) && function.arity as usize == arity {
            return Some(function);
        }
    }
    None
}

/// The function of this name with so many parameters, where the module exports it.
pub(crate) fn exported<'a>(unit: &'a Unit<'a>, name: &Name, arity: usize) -> Option<&'a Function>
    ensures { option_map (λ f. f.now) result ≡ (if exports unit.entry.now name.now arity then function_in unit.entry.now.functions name.now arity else None) }
{
    let Some(function) = function_of(unit, name, arity) else {
        return None;
    };
    if unit.exports(name, function.arity) {
        return Some(function);
    }
    None
}
