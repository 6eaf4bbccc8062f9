//! Files that are read by their names.

ghost use Rattle.std.specs.Prelude.{◌≡◌, ◌≤◌, ◌++◌, ◌∷◌, [], ℕ, List, Option, length, take, IfOk, OnOk, OnErr};
ghost use Rattle.std.specs.Option.{option_copied, option_map};
ghost use Rattle.std.specs.Result.{IsErrOf};
ghost use Rattle.edb_io.specs.Faults.{Rose};
ghost use Rattle.edb_io.specs.OneRead.{Read};
ghost use Rattle.edb_io.specs.Reads.{Lists, file_read};
ghost use Rattle.edb_io.specs.declared.reading.ReadFault.TheVariants.{NoMemory};

use edb_lang::Bytes;
use std::alloc::{AllocError, Global};
use std::marker::Model;
use std::snapshot::Snapshot;

/// One read, as files keep it in the list of their reads: the name, the most bytes that were asked
/// for, and those that were answered, or none if the read failed. The bytes are kept for contracts
/// alone, and no copy of them is made.
#[derive(Drop)]
pub struct FileRead {
    name: Bytes,
    most: u32,
    bytes: Option<Snapshot<Bytes>>,
}

impl Model for FileRead {
    ghost use Rattle.edb_io.specs.OneRead.{Read, coded_read};
    ghost use Rattle.std.specs.Option.{option_map};

    ghost Value = { Read };

    ghost coded = { coded_read };

    ghost view = { λ r. record { name = r.name; most = r.most; bytes = option_map (λ seen. seen.value) r.bytes } };
}

/// Why a read gave no bytes.
#[derive(Clone, Copy, Debug, PartialEq, Eq)]
pub enum ReadFault {
    /// The file is missing or could not be read; the count of faults rose.
    Failed,
    /// Out of memory; the read isn't listed.
    NoMemory,
}

impl From<AllocError> for ReadFault {
    ghost from_gives = { λ _ fault. fault ≡ NoMemory };

    fn from(_refused: AllocError) -> ReadFault {
        ReadFault::NoMemory
    }
}

/// Files that are read by their names. Contracts see three things of them: the contents by name, if
/// these are known; a count of the faults so far; and the list of the reads.
pub trait Files {
    ghost contents: { Self → Option (List ℕ → Option (List ℕ)) };

    ghost faults: { Self → ℕ };

    ghost reads: { Self → List Read };

    /// The first `most` bytes of the file with this name, or all of a shorter file.
    ///
    /// `Failed` comes only if the count of faults rose, as it does if the file is missing. `NoMemory`
    /// comes if it is out of memory. The contents never change.
    fn read(&mut self, alloc: Global, name: &str, most: u32) -> Result<Bytes, ReadFault>
        ensures listed { Lists (reads self.old) (reads self.new) name.now most result }
        ensures bounded { IfOk result (λ bytes. length bytes ≤ most) }
        ensures content { IfOk result (λ bytes. (files : List ℕ → Option (List ℕ))
            → contents self.old ≡ Some files
            → option_map (take most) (files name.now) ≡ Some bytes) }
        ensures same { contents self.new ≡ contents self.old }
        ensures later { faults self.old ≤ faults self.new }
        ensures cause { IsErrOf result ReadFault.Failed
            → Rose (faults self.old) (faults self.new) };
}

/// Puts a read at the end of the list. If it is out of memory the list stays as it was.
pub(crate) fn note_read(
    reads: &mut Vec<FileRead>,
    alloc: Global,
    name: &str,
    most: u32,
    answer: Option<&Bytes>,
) -> Result<(), AllocError>
    ensures ok { OnOk result (reads.new.items
        ≡ reads.old.items ++ file_read name.now most (option_copied answer.entry) ∷ []) }
    ensures err { OnErr result (reads.new.items ≡ reads.old.items) }
{
    let name = Bytes::from_slice(alloc, name.as_bytes())?;
    let bytes = match answer {
        Some(bytes) => Some(Snapshot::of(bytes)),
        None => None,
    };
    reads.push(FileRead { name, most, bytes })?;
    Ok(())
}
