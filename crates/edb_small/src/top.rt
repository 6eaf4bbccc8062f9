//! The reader of a whole text.

ghost use Rattle.std.specs.Prelude.{◌≡◌, List, ℕ, IfOk, IfSome, IfNone};
ghost use Rattle.edb_lang.specs.Syntax.{ModuleTree};
ghost use Rattle.edb_small.specs.SmallModule.{IsModule, is_plain};
ghost use Rattle.edb_small.specs.Bounds.{IsBounded};

use crate::conditions::module_passes;
use crate::heads::module_of;
use edb_lang::Module;
use edb_scan::{one_answer, scan};
use std::alloc::{AllocError, Global};

/// Whether no byte begins a comment or a quoted atom.
fn has_plain_bytes(bytes: &[u8]) -> bool
    ensures { result ≡ is_plain bytes.now }
{
    for byte in bytes {
        if *byte == b'%' || *byte == b'\'' {
            return false;
        }
    }
    true
}

/// The module that a text writes, where it is one of the small language; refused only for want of memory.
pub fn read_module(alloc: Global, bytes: &[u8]) -> Result<Option<Module>, AllocError>
    // What is read is written so.
    ensures sound { IfOk result (λ r. IfSome r (λ m. IsModule bytes.now m)) }
    // Nothing is read only where no module is written so.
    ensures complete { IfOk result (λ r. IfNone r ((m : ModuleTree) → IsModule bytes.now m → ⊥)) }
{
    one_answer();
    if !has_plain_bytes(bytes) {
        return Ok(None);
    }
    let Ok(tokens) = scan(alloc, bytes)? else {
        return Ok(None);
    };
    let Some(module) = module_of(alloc, tokens.as_slice())? else {
        return Ok(None);
    };
    if module_passes(alloc, &module)? {
        return Ok(Some(module));
    }
    Ok(None)
}

/// The law that a text writes one module at most.
pub fn one_module()
    ensures { (bytes : List ℕ) (m n : ModuleTree) → IsModule bytes m → IsModule bytes n → m ≡ n }
{
    one_answer();
}

/// The law that the names of a module and of its functions have at most 255 characters, and that each function
/// has fewer than 2 ^ 32 parameters.
pub fn modules_are_bounded()
    ensures { (bytes : List ℕ) (m : ModuleTree) → IsModule bytes m → IsBounded m }
{}
