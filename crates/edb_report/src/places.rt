//! Places and functions.

ghost use Rattle.std.specs.Prelude.{◌≡◌, ◌++◌, OnOk, codes};
ghost use Rattle.edb_report.specs.Places.{place_text, function_text};

use edb_lang::Name;
use edb_text::put_atom;
use edb_words::{put_name, put_text};
use std::alloc::{AllocError, Global};

// Puts a space and a line of a module.
pub(crate) fn put_place(
    out: &mut Vec<u8>,
    alloc: Global,
    module: &Name,
    line: u32,
) -> Result<(), AllocError>
    ensures { OnOk result (out.new.items ≡ out.old.items
        ++ (codes " " ++ place_text «module».now line)) }
{
    put_name(out, module)?;
    put_text(out, ":")?;
    put_text(out, line.to_string(alloc)?.as_str())
}

// Puts a space and a function of a module, with so many arguments.
pub(crate) fn put_function(
    out: &mut Vec<u8>,
    alloc: Global,
    module: &Name,
    name: &Name,
    arity: u64,
) -> Result<(), AllocError>
    ensures { OnOk result (out.new.items ≡ out.old.items
        ++ (codes " " ++ function_text «module».now name.now arity)) }
{
    put_name(out, module)?;
    put_text(out, ":")?;
    put_atom(out, name.as_bytes())?;
    put_text(out, "/")?;
    put_text(out, arity.to_string(alloc)?.as_str())
}
