//! Functions and modules.

ghost use Rattle.std.specs.Prelude.{◌≡◌, ◌++◌, ◌∷◌, [], IfOk, OnOk};
ghost use Rattle.edb_syntax.specs.Syntax.{clauses_of};
ghost use Rattle.edb_scan.specs.declared.lexeme.Token.TheVariants as token;
ghost use Rattle.edb_print.specs.Pieces.{tight, line, piece, piece_text, bytes_of};
ghost use Rattle.edb_print.specs.Layout.{with_name, lay_clause, lay_clauses, lay_function, lay_functions, lay_exports, lay_module_line, text_of};
ghost use Rattle.edb_print.specs.Parts.{lay_entries, lay_attribute, attribute_end};
ghost use Rattle.edb_print.specs.Views.{gap_of};

use crate::clauses::{Opening, put_clause};
use crate::gaps::Gap;
use crate::tokens::{put_entry, put_name, put_sign};
use edb_lang::Bytes;
use edb_scan::Mark;
use edb_syntax::{Clause, Export, Function, Module};
use std::alloc::{AllocError, Global};

/// Puts a clause of a function of this name.
#[tactic(auto, using(edb_syntax::proofs::Lists::lists, crate::proofs::Texts::texts, crate::proofs::Laid::named_laid))]
fn put_named_clause(
    out: &mut Vec<u8>,
    alloc: Global,
    name: &[u8],
    clause: &Clause,
) -> Result<(), AllocError>
    ensures { OnOk result (out.new.items ≡ out.old.items ++ bytes_of (lay_clause (with_name name.now) (line 0) 0 clause.now)) }
{
    put_name(out, Gap::Line(0), name)?;
    put_clause(out, alloc, Opening::Parameters, Gap::Tight, 0, clause)
}

/// Puts the clauses of a function of this name.
fn put_named_clauses(
    out: &mut Vec<u8>,
    alloc: Global,
    name: &[u8],
    clauses: &[Clause],
) -> Result<(), AllocError>
    ensures { OnOk result (out.new.items ≡ out.old.items ++ bytes_of (lay_clauses (with_name name.now) (line 0) 0 0 (clauses_of clauses.now))) }
{
    let mut first = true;
    for clause in clauses {
        if first {
            put_named_clause(out, alloc, name, clause)?;
            first = false;
        } else {
            put_sign(out, Gap::Tight, Mark::Semicolon)?;
            put_named_clause(out, alloc, name, clause)?;
        }
    }
    Ok(())
}

/// Puts a dot.
fn put_dot(out: &mut Vec<u8>) -> Result<(), AllocError>
    ensures { OnOk result (out.new.items ≡ out.old.items ++ piece_text (piece tight token.Dot)) }
{
    out.push(b'.')?;
    Ok(())
}

/// Puts a function; nothing if it has no clause.
fn put_function(out: &mut Vec<u8>, alloc: Global, function: &Function) -> Result<(), AllocError>
    ensures { OnOk result (out.new.items ≡ out.old.items ++ bytes_of (lay_function function.now)) }
{
    if function.clauses.is_empty() {
        return Ok(());
    }
    put_named_clauses(out, alloc, function.name.as_bytes(), &function.clauses)?;
    put_dot(out)
}

/// Puts functions.
fn put_functions(out: &mut Vec<u8>, alloc: Global, functions: &[Function]) -> Result<(), AllocError>
    ensures { OnOk result (out.new.items ≡ out.old.items ++ bytes_of (lay_functions functions.now)) }
{
    for function in functions {
        put_function(out, alloc, function)?;
    }
    Ok(())
}

/// Puts entries of an export with `, ` between them.
fn put_entries(out: &mut Vec<u8>, alloc: Global, entries: &[Export]) -> Result<(), AllocError>
    ensures { OnOk result (out.new.items ≡ out.old.items ++ bytes_of (lay_entries entries.now)) }
{
    let mut first = true;
    for entry in entries {
        if first {
            put_entry(out, alloc, Gap::Tight, &entry.name, entry.arity)?;
            first = false;
        } else {
            put_sign(out, Gap::Tight, Mark::Comma)?;
            put_entry(out, alloc, Gap::Blank, &entry.name, entry.arity)?;
        }
    }
    Ok(())
}

/// Puts the beginning of an attribute: `-`, its name and `(`.
fn put_attribute(out: &mut Vec<u8>, gap: Gap, name: &[u8]) -> Result<(), AllocError>
    ensures { OnOk result (out.new.items ≡ out.old.items ++ bytes_of (lay_attribute (gap_of gap) name.now)) }
{
    put_sign(out, gap, Mark::Minus)?;
    put_name(out, Gap::Tight, name)?;
    put_sign(out, Gap::Tight, Mark::ParenOpen)
}

/// Puts the end of an attribute: `)` and the dot.
fn put_attribute_end(out: &mut Vec<u8>) -> Result<(), AllocError>
    ensures { OnOk result (out.new.items ≡ out.old.items ++ bytes_of attribute_end) }
{
    put_sign(out, Gap::Tight, Mark::ParenClose)?;
    put_dot(out)
}

/// Puts the export line, if something is exported.
fn put_exports(out: &mut Vec<u8>, alloc: Global, exports: &[Export]) -> Result<(), AllocError>
    ensures { OnOk result (out.new.items ≡ out.old.items ++ bytes_of (lay_exports exports.now)) }
{
    if exports.is_empty() {
        return Ok(());
    }
    put_attribute(out, Gap::Line(0), b"export")?;
    put_sign(out, Gap::Tight, Mark::BracketOpen)?;
    put_entries(out, alloc, exports)?;
    put_sign(out, Gap::Tight, Mark::BracketClose)?;
    put_attribute_end(out)
}

/// Puts the module line.
fn put_module_line(out: &mut Vec<u8>, name: &[u8]) -> Result<(), AllocError>
    ensures { OnOk result (out.new.items ≡ out.old.items ++ bytes_of (lay_module_line name.now)) }
{
    put_attribute(out, Gap::Tight, b"module")?;
    put_name(out, Gap::Tight, name)?;
    put_attribute_end(out)
}

/// The text of a module; fails only when out of memory.
#[tactic(auto, using(crate::proofs::Texts::texts), unfolding(crate::specs::Layout::text_of))]
pub fn module_text(alloc: Global, module: &Module) -> Result<Bytes, AllocError>
    ensures { IfOk result (λ bytes. bytes ≡ text_of «module».now) }
{
    let mut out = Vec::new(alloc);
    put_module_line(&mut out, module.name.as_bytes())?;
    put_exports(&mut out, alloc, &module.exports)?;
    put_functions(&mut out, alloc, &module.functions)?;
    out.push(b'\n')?;
    Ok(Bytes::from_vec(out))
}
