//! Files that are read in order.

ghost use Rattle.std.specs.Prelude.{◌≡◌, ◌<◌, ◌≤◌, ◌^◌, map, length, IfOk, IfErr};
ghost use Rattle.edb_files.specs.InOrder.{AreRead};
ghost use Rattle.edb_files.specs.Asking.{asked_of, StopsBy};

use edb_io::{Files, ReadFault};
use edb_lang::Bytes;
use std::alloc::Global;

/// The most bytes that are read of a module or a script: one more than it may have.
pub const MOST_BYTES: u32 = 1_000_001;

/// A file that is asked for.
#[derive(Clone, Copy)]
pub struct AskedFile<'a> {
    /// The name of the file.
    pub name: &'a str,
    /// The most bytes that are read of it.
    pub most: u32,
}

/// Why files were not all read.
#[derive(Clone, Copy, Debug, PartialEq, Eq)]
pub enum ReadsFault {
    /// The read of this file failed, counted from 0; the count of the files' faults rose.
    Failed { file: u32 },
    /// Out of memory.
    NoMemory,
}

/// The texts of these files, read in order, up to as many bytes of each as are asked for. `Failed` comes at the first
/// whose read fails, and `NoMemory` if it is out of memory; then no more is read.
pub fn read_in_order<F: Files>(
    alloc: Global,
    asked: &[AskedFile<'_>],
    files: &mut F,
) -> Result<Vec<Bytes>, ReadsFault>
    requires { length asked.now < 2 ^ 32 }
    ensures ok { IfOk result (λ texts. AreRead (map asked_of asked.now) (F.reads files.old) (F.reads files.new) texts.items) }
    ensures err { IfErr result (λ fault. StopsBy (map asked_of asked.now) (F.reads files.old) (F.reads files.new) (F.faults files.old) (F.faults files.new) fault) }
    ensures later { F.faults files.old ≤ F.faults files.new }
{
    let mut texts = Vec::new(alloc);
    for file in asked {
        match files.read(alloc, file.name, file.most) {
            Ok(text) => match texts.push(text) {
                Ok(()) => {}
                Err(_) => return Err(ReadsFault::NoMemory),
            },
            Err(ReadFault::Failed) => {
                return Err(ReadsFault::Failed {
                    file: texts.len() as u32,
                });
            }
            Err(ReadFault::NoMemory) => return Err(ReadsFault::NoMemory),
        }
    }
    Ok(texts)
}
