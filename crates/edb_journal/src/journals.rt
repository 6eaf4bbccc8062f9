//! The text of a journal.

ghost use Rattle.std.specs.Prelude.{◌≡◌, ◌++◌, IfOk, OnOk};
ghost use Rattle.std.specs.List.{flat_map};
ghost use Rattle.edb_journal.specs.Lines.{line};
ghost use Rattle.edb_journal.specs.Texts.{journal_text};

use crate::writing::put_entry;
use edb_event::{Entry, Journal};
use edb_lang::Bytes;
use std::alloc::{AllocError, Global};

/// Puts the lines of entries.
#[tactic(auto)]
fn put_entries(out: &mut Vec<u8>, alloc: Global, entries: &[Entry]) -> Result<(), AllocError>
    ensures { OnOk result (out.new.items ≡ out.old.items ++ flat_map line entries.now) }
{
    for entry in entries {
        put_entry(out, alloc, entry)?;
    }
    Ok(())
}

/// The text of a journal, first version. `AllocError` only if out of memory.
pub fn write_journal(alloc: Global, journal: &Journal) -> Result<Bytes, AllocError>
    ensures { IfOk result (λ bytes. bytes ≡ journal_text journal.now.entries) }
{
    let mut out = Vec::from_slice(alloc, b"edb 1\n")?;
    put_entries(&mut out, alloc, journal.entries())?;
    Ok(Bytes::from_vec(out))
}
