//! Files in memory that no read fails on.

ghost use Rattle.std.specs.Prelude.{◌≡◌, [], OnOk, OnErr, Some};
ghost use Rattle.std.specs.Option.{option_map};
ghost use Rattle.edb_io.specs.Held.{files_with, empty_files, with_file};

use crate::held::{HeldFile, find_file, first_bytes, hold_file};
use crate::reading::{FileRead, Files, ReadFault, note_read};
use edb_lang::Bytes;
use std::alloc::{AllocError, Global};

/// Files in memory on which a read fails only out of memory: a name that was not added is an
/// empty file.
#[derive(Drop)]
pub struct CleanFiles {
    alloc: Global,
    held: Vec<HeldFile>,
    reads: Vec<FileRead>,
}

impl CleanFiles {
    /// Empty files alone, and no reads.
    pub fn new(alloc: Global) -> Self
        ensures contents { ⟦<CleanFiles as Files>⟧.contents result ≡ Some empty_files }
        ensures reads { ⟦<CleanFiles as Files>⟧.reads result ≡ [] }
    {
        CleanFiles {
            alloc,
            held: Vec::new(alloc),
            reads: Vec::new(alloc),
        }
    }

    /// Gives the file with this name this content, whatever it had. If it is out of memory the
    /// files stay as they were.
    pub fn add(&mut self, name: &str, content: &[u8]) -> Result<(), AllocError>
        ensures ok { OnOk result (
            option_map (λ files. with_file files name.now content.now)
            (⟦<CleanFiles as Files>⟧.contents self.old)
            ≡ ⟦<CleanFiles as Files>⟧.contents self.new) }
        ensures err { OnErr result (
            ⟦<CleanFiles as Files>⟧.contents self.new ≡ ⟦<CleanFiles as Files>⟧.contents self.old) }
        ensures reads { ⟦<CleanFiles as Files>⟧.reads self.new
            ≡ ⟦<CleanFiles as Files>⟧.reads self.old }
    {
        hold_file(&mut self.held, self.alloc, name, content)
    }
}

impl Files for CleanFiles {
    ghost contents = { λ files. Some (files_with empty_files files.held.items) };

    ghost faults = { λ _. 0 };

    ghost reads = { λ files. files.reads.items };

    fn read(&mut self, alloc: Global, name: &str, most: u32) -> Result<Bytes, ReadFault> {
        let content = find_file(self.held.as_slice(), name).unwrap_or(&[]);
        let bytes = first_bytes(alloc, content, most)?;
        note_read(&mut self.reads, alloc, name, most, Some(&bytes))?;
        Ok(bytes)
    }
}
