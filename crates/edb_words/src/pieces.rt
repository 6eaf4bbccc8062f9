//! The pieces of a line: texts, words, atoms, numbers and processes.

ghost use Rattle.std.specs.Prelude.{◌≡◌, ◌++◌, OnOk, codes};
ghost use Rattle.std.specs.Fmt.{decimal};
ghost use Rattle.edb_lang.specs.TermText.{atom_text};
ghost use Rattle.edb_words.specs.Words.{process_word};

use crate::ProcessForm;
use edb_lang::Name;
use edb_text::put_atom;
use std::alloc::{AllocError, Global};

/// Puts a text at the end of `out`. The only error is out of memory.
pub fn put_text(out: &mut Vec<u8>, text: &str) -> Result<(), AllocError>
    ensures { OnOk result (out.new.items ≡ out.old.items ++ text.now) }
{
    out.extend_from_slice(text.as_bytes())?;
    Ok(())
}

/// Puts a space and a word. The only error is out of memory.
pub fn put_word(out: &mut Vec<u8>, word: &str) -> Result<(), AllocError>
    ensures { OnOk result (out.new.items ≡ out.old.items ++ (codes " " ++ word.now)) }
{
    put_text(out, " ")?;
    put_text(out, word)
}

/// Puts a space and an atom, quoted if it has to be. The only error is out of memory.
pub fn put_name(out: &mut Vec<u8>, name: &Name) -> Result<(), AllocError>
    ensures { OnOk result (out.new.items ≡ out.old.items ++ (codes " " ++ atom_text name.now)) }
{
    put_text(out, " ")?;
    put_atom(out, name.as_bytes())
}

/// Puts a space and a number in decimal. The only error is out of memory.
pub fn put_number(out: &mut Vec<u8>, alloc: Global, number: u64) -> Result<(), AllocError>
    ensures { OnOk result (out.new.items ≡ out.old.items ++ (codes " " ++ decimal number)) }
{
    let digits = number.to_string(alloc)?;
    put_word(out, digits.as_str())
}

/// Puts a space and a process in this form. The only error is out of memory.
pub fn put_process(
    out: &mut Vec<u8>,
    alloc: Global,
    pid: u32,
    form: ProcessForm,
) -> Result<(), AllocError>
    ensures { OnOk result (out.new.items ≡ out.old.items ++ (codes " " ++ process_word form pid)) }
{
    put_text(out, " ")?;
    put_pid(out, alloc, pid, form)
}

/// Puts a process in this form, with no space before it. The only error is out of memory.
pub fn put_pid(
    out: &mut Vec<u8>,
    alloc: Global,
    pid: u32,
    form: ProcessForm,
) -> Result<(), AllocError>
    ensures { OnOk result (out.new.items ≡ out.old.items ++ process_word form pid) }
{
    let digits = pid.to_string(alloc)?;
    match form {
        ProcessForm::Angled => {
            put_text(out, "<")?;
            put_text(out, digits.as_str())?;
            put_text(out, ">")
        }
        ProcessForm::Plain => put_text(out, digits.as_str()),
    }
}
