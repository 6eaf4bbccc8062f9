//! The files of the system.

ghost use Rattle.std.specs.Prelude.{◌≡◌, ◌≤◌, [], ℕ, List, Option, length, take, IfOk, OnOk, None, Some};
ghost use Rattle.std.specs.Option.{option_map};
ghost use Rattle.std.specs.Result.{IsErrOf};
ghost use Rattle.edb_io.specs.Faults.{Rose};
ghost use Rattle.edb_io.specs.Reads.{Lists};

use crate::reading::{FileRead, Files, ReadFault, note_read};
use edb_lang::Bytes;
use std::alloc::Global;
use std::fs;
use std::io::Read;
use std::rt::Files as Folder;

/// How many bytes one call of the system is asked for at most.
const PIECE: usize = 4096;

/// The files of the system, by their paths. What they hold is not told to contracts. Each error of the
/// system is a fault that is counted, also where it lacks memory to open or read a file.
#[derive(Drop)]
pub struct DiskFiles<R: Folder + Drop> {
    rt: R,
    faults: u64,
    reads: Vec<FileRead>,
}

impl<R: Folder + Drop> DiskFiles<R> {
    /// The files that this runtime reaches, with no reads so far.
    pub fn new(rt: R, alloc: Global) -> Self
        ensures faults { ⟦<DiskFiles<R> as Files>⟧.faults result ≡ 0 }
        ensures reads { ⟦<DiskFiles<R> as Files>⟧.reads result ≡ [] }
    {
        DiskFiles {
            rt,
            faults: 0,
            reads: Vec::new(alloc),
        }
    }
}

impl<R: Folder + Drop> Files for DiskFiles<R> {
    ghost contents = { λ _. None };

    ghost faults = { λ files. files.faults };

    ghost reads = { λ files. files.reads.items };

    /// The first `most` bytes of the file. The count of faults rises only with a `Failed`.
    fn read(&mut self, alloc: Global, name: &str, most: u32) -> Result<Bytes, ReadFault>
        ensures listed { Lists (⟦<DiskFiles<R> as Files>⟧.reads self.old)
            (⟦<DiskFiles<R> as Files>⟧.reads self.new)
            name.now most result }
        ensures bounded { IfOk result (λ bytes. length bytes ≤ most) }
        ensures content { IfOk result (λ bytes. (files : List ℕ → Option (List ℕ))
            → ⟦<DiskFiles<R> as Files>⟧.contents self.old ≡ Some files
            → option_map (take most) (files name.now) ≡ Some bytes) }
        ensures same { ⟦<DiskFiles<R> as Files>⟧.contents self.new
            ≡ ⟦<DiskFiles<R> as Files>⟧.contents self.old }
        ensures later { ⟦<DiskFiles<R> as Files>⟧.faults self.old
            ≤ ⟦<DiskFiles<R> as Files>⟧.faults self.new }
        ensures cause { IsErrOf result ReadFault.Failed
            → Rose (⟦<DiskFiles<R> as Files>⟧.faults self.old)
            (⟦<DiskFiles<R> as Files>⟧.faults self.new) }

        ensures steady { OnOk result (⟦<DiskFiles<R> as Files>⟧.faults self.new
            ≡ ⟦<DiskFiles<R> as Files>⟧.faults self.old) }
    {
        match read_start(&self.rt, alloc, name, most) {
            Ok(bytes) => {
                note_read(&mut self.reads, alloc, name, most, Some(&bytes))?;
                Ok(bytes)
            }
            Err(ReadFault::Failed) => {
                note_read(&mut self.reads, alloc, name, most, None)?;
                self.faults = self.faults.saturating_add(1);
                Err(ReadFault::Failed)
            }
            Err(ReadFault::NoMemory) => Err(ReadFault::NoMemory),
        }
    }
}

/// The first `most` bytes of a file of the system, or all of a shorter one. `Failed` comes if it
/// can't be opened or a read of it fails, `NoMemory` if it is out of memory.
fn read_start<R: Folder>(rt: &R, alloc: Global, name: &str, most: u32) -> Result<Bytes, ReadFault>
    ensures { IfOk result (λ bytes. length bytes ≤ most) }
{
    let Ok(mut file) = fs::open(rt, name) else {
        return Err(ReadFault::Failed);
    };
    let most = most as usize;
    let mut bytes = Bytes::new(alloc);
    let mut piece = [0u8; PIECE];
    while bytes.len() < most {
        let room = PIECE.min(most - bytes.len());
        match file.read(&mut piece[..room]) {
            Ok(0) => break,
            Ok(count) => bytes.extend(&piece[..count])?,
            Err(_) => return Err(ReadFault::Failed),
        }
    }
    Ok(bytes)
}
