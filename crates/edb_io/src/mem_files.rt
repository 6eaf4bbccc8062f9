//! Files in memory, of which chosen reads fail.

ghost use Rattle.std.specs.Prelude.{◌≡◌, ◌≤◌, ◌++◌, ◌∷◌, [], ◌⊎◌, ℕ, List, Option, length, take, IfOk, OnOk, OnErr, IsErr, Some, None};
ghost use Rattle.std.specs.Option.{option_map, option_and_then};
ghost use Rattle.std.specs.Result.{IsErrOf};
ghost use Rattle.edb_io.specs.Calls.{next_call};
ghost use Rattle.edb_io.specs.Faults.{Rose};
ghost use Rattle.edb_io.specs.Held.{files_with, no_files, with_file};
ghost use Rattle.edb_io.specs.Reads.{Lists};

use crate::held::{HeldFile, find_file, first_bytes, hold_file};
use crate::reading::{FileRead, Files, ReadFault, note_read};
use edb_lang::Bytes;
use std::alloc::{AllocError, Global};

/// Files in memory. The reads are counted from 1, and those whose numbers were given to `fail`
/// fail, as does the read of a name that was not added.
#[derive(Drop)]
pub struct MemFiles {
    alloc: Global,
    held: Vec<HeldFile>,
    failing: Vec<u64>,
    calls: u64,
    faults: u64,
    reads: Vec<FileRead>,
}

impl MemFiles {
    ghost use Rattle.edb_io.specs.MemFiles.{failing_reads, read_count};

    /// No files, no reads, and no read that is to fail.
    pub fn new(alloc: Global) -> Self
        ensures contents { ⟦<MemFiles as Files>⟧.contents result ≡ Some no_files }
        ensures faults { ⟦<MemFiles as Files>⟧.faults result ≡ 0 }
        ensures reads { ⟦<MemFiles as Files>⟧.reads result ≡ [] }
        ensures failing { failing_reads result ≡ [] }
        ensures count { read_count result ≡ 0 }
    {
        MemFiles {
            alloc,
            held: Vec::new(alloc),
            failing: Vec::new(alloc),
            calls: 0,
            faults: 0,
            reads: Vec::new(alloc),
        }
    }

    /// Adds a file. Where there is one with this name, it has the new content from now on. If it
    /// is out of memory the files stay as they were.
    pub fn add(&mut self, name: &str, content: &[u8]) -> Result<(), AllocError>
        ensures ok { OnOk result (
            option_map (λ files. with_file files name.now content.now)
            (⟦<MemFiles as Files>⟧.contents self.old)
            ≡ ⟦<MemFiles as Files>⟧.contents self.new) }
        ensures err { OnErr result (
            ⟦<MemFiles as Files>⟧.contents self.new ≡ ⟦<MemFiles as Files>⟧.contents self.old) }
        ensures faults { ⟦<MemFiles as Files>⟧.faults self.new
            ≡ ⟦<MemFiles as Files>⟧.faults self.old }
        ensures reads { ⟦<MemFiles as Files>⟧.reads self.new
            ≡ ⟦<MemFiles as Files>⟧.reads self.old }
        ensures failing { failing_reads self.new ≡ failing_reads self.old }
        ensures count { read_count self.new ≡ read_count self.old }
    {
        hold_file(&mut self.held, self.alloc, name, content)
    }

    /// Lets the read with this number fail, counted from 1. If it is out of memory everything
    /// stays as it was.
    pub fn fail(&mut self, call: u32) -> Result<(), AllocError>
        ensures ok { OnOk result (failing_reads self.new ≡ failing_reads self.old ++ call ∷ []) }
        ensures err { OnErr result (failing_reads self.new ≡ failing_reads self.old) }
        ensures contents { ⟦<MemFiles as Files>⟧.contents self.new
            ≡ ⟦<MemFiles as Files>⟧.contents self.old }
        ensures faults { ⟦<MemFiles as Files>⟧.faults self.new
            ≡ ⟦<MemFiles as Files>⟧.faults self.old }
        ensures reads { ⟦<MemFiles as Files>⟧.reads self.new
            ≡ ⟦<MemFiles as Files>⟧.reads self.old }
        ensures count { read_count self.new ≡ read_count self.old }
    {
        self.failing.push(u64::from(call))?;
        Ok(())
    }
}

impl Files for MemFiles {
    ghost use Rattle.edb_io.specs.MemFiles.{failing_reads, read_count, IsToFail};

    ghost contents = { λ files. Some (files_with no_files files.held.items) };

    ghost faults = { λ files. files.faults };

    ghost reads = { λ files. files.reads.items };

    /// The first `most` bytes of the content. `Failed` comes exactly where this read is one that is
    /// to fail or no file has the name, unless it is out of memory.
    fn read(&mut self, alloc: Global, name: &str, most: u32) -> Result<Bytes, ReadFault>
        ensures listed { Lists (⟦<MemFiles as Files>⟧.reads self.old)
            (⟦<MemFiles as Files>⟧.reads self.new)
            name.now most result }
        ensures bounded { IfOk result (λ bytes. length bytes ≤ most) }
        ensures content { IfOk result (λ bytes. (files : List ℕ → Option (List ℕ))
            → ⟦<MemFiles as Files>⟧.contents self.old ≡ Some files
            → option_map (take most) (files name.now) ≡ Some bytes) }
        ensures same { ⟦<MemFiles as Files>⟧.contents self.new
            ≡ ⟦<MemFiles as Files>⟧.contents self.old }
        ensures later { ⟦<MemFiles as Files>⟧.faults self.old
            ≤ ⟦<MemFiles as Files>⟧.faults self.new }
        ensures cause { IsErrOf result ReadFault.Failed
            → Rose (⟦<MemFiles as Files>⟧.faults self.old) (⟦<MemFiles as Files>⟧.faults self.new) }

        ensures to_fail { IsToFail self.old → IsErr result }
        ensures failed { IsErrOf result ReadFault.Failed → IsToFail self.old
            ⊎ (option_and_then (λ files. files name.now)
            (⟦<MemFiles as Files>⟧.contents self.old) ≡ None) }
        ensures steady { OnOk result (⟦<MemFiles as Files>⟧.faults self.new
            ≡ ⟦<MemFiles as Files>⟧.faults self.old) }
        ensures counted { read_count self.new ≡ next_call (read_count self.old) }
        ensures failing { failing_reads self.new ≡ failing_reads self.old }
    {
        self.calls = self.calls.saturating_add(1);
        let found = if self.failing.contains(&self.calls) {
            None
        } else {
            find_file(self.held.as_slice(), name)
        };
        match found {
            Some(content) => {
                let bytes = first_bytes(alloc, content, most)?;
                note_read(&mut self.reads, alloc, name, most, Some(&bytes))?;
                Ok(bytes)
            }
            None => {
                note_read(&mut self.reads, alloc, name, most, None)?;
                self.faults = self.faults.saturating_add(1);
                Err(ReadFault::Failed)
            }
        }
    }
}
