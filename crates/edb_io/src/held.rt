//! Files that are held in memory.

ghost use Rattle.std.specs.Prelude.{◌≡◌, ◌++◌, ◌∷◌, [], take, IfOk, OnOk, OnErr};
ghost use Rattle.std.specs.Option.{option_copied};
ghost use Rattle.edb_io.specs.Held.{files_with, no_files};

use edb_lang::Bytes;
use std::alloc::{AllocError, Global};

/// A file's name and its content.
#[derive(Drop)]
pub(crate) struct HeldFile {
    pub name: Bytes,
    pub content: Bytes,
}

/// Puts a file after those that are held; if it is out of memory they stay as they were.
pub(crate) fn hold_file(
    held: &mut Vec<HeldFile>,
    alloc: Global,
    name: &str,
    content: &[u8],
) -> Result<(), AllocError>
    ensures ok { OnOk result (held.new.items
        ≡ held.old.items ++ record { name = name.now; content = content.now } ∷ []) }
    ensures err { OnErr result (held.new.items ≡ held.old.items) }
{
    let name = Bytes::from_slice(alloc, name.as_bytes())?;
    let content = Bytes::from_slice(alloc, content)?;
    held.push(HeldFile { name, content })?;
    Ok(())
}

/// The content of the last of the files with this name; none where no file has it.
pub(crate) fn find_file<'a>(held: &'a [HeldFile], name: &str) -> Option<&'a [u8]>
    ensures { option_copied result ≡ files_with no_files held.now name.now }
{
    let mut found = None;
    for file in held {
        if name.as_bytes() == file.name.as_slice() {
            found = Some(file.content.as_slice());
        }
    }
    found
}

/// A copy of the first `most` bytes, or of all if there are fewer. `Err` comes only out of
/// memory.
pub(crate) fn first_bytes(alloc: Global, content: &[u8], most: u32) -> Result<Bytes, AllocError>
    ensures { IfOk result (λ bytes. bytes ≡ take most content.now) }
{
    let end = content.len().min(most as usize);
    Bytes::from_slice(alloc, &content[..end])
}
