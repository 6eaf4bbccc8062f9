//! The parse of a whole text.

ghost use Rattle.std.specs.Prelude.{◌≡◌, IfOk, MatchResult, ℕ};
ghost use Rattle.edb_syntax.specs.Syntax.{ModuleTree};
ghost use Rattle.edb_grammar.specs.Files.{ReadsFile};
ghost use Rattle.edb_grammar.specs.Faults.{IsFault};

use crate::fault::FormFault;
use crate::files::{NoModule, read_module};
use edb_scan::Tokens;
use edb_syntax::Module;
use std::alloc::{AllocError, Global};

/// The module that the tokens of a text are, by the grammar of docs/LANGUAGE.md.
///
/// Each form has to be one by the grammar: the first the module form, each other one an export, an
/// attribute that is passed over, or a function; nothing in a function is more than 200 levels deep, and no
/// form has more than 500 round brackets open at once. `FormFault` names the first form that is none,
/// counted from 1, and the line of its first token; a text without tokens has it at form 1, line 1.
/// `AllocError` is want of memory alone.
pub fn parse(alloc: Global, tokens: &Tokens) -> Result<Result<Module, FormFault>, AllocError>
    // What is answered is so by the grammar: the tree, or the first form without one.
    ensures sound { IfOk result (λ r. MatchResult r (λ m. ReadsFile tokens.now m) (λ f. IsFault tokens.now f.form f.line)) }
    // Each tree and each fault that the grammar gives is answered, but for want of memory.
    ensures complete { (m : ModuleTree) → ReadsFile tokens.now m → IfOk result (λ r. MatchResult r (λ found. found ≡ m) (λ _. ⊥)) }
    ensures refused { (k l : ℕ) → IsFault tokens.now k l → IfOk result (λ r. MatchResult r (λ _. ⊥) (λ f. (f.form ≡ k) × (f.line ≡ l))) }
{
    if tokens.len() == 0 {
        return Ok(Err(FormFault { form: 1, line: 1 }));
    }
    match read_module(alloc, tokens.as_slice()) {
        Ok(module) => Ok(Ok(module)),
        Err(NoModule::Fault(fault)) => Ok(Err(fault)),
        Err(NoModule::Memory) => Err(AllocError),
    }
}
