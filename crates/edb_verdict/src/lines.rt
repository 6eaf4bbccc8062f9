//! The line that a fault is told by.

ghost use Rattle.std.specs.Prelude.{◌≡◌, ◌++◌, codes, IfOk};
ghost use Rattle.std.specs.Fmt.{decimal};
ghost use Rattle.edb_verdict.specs.FaultLines.{fault_line, kind_text};

use crate::fault::ModuleFault;
use edb_check::CheckKind;
use edb_lang::Bytes;
use std::alloc::{AllocError, Global};

/// The word of a kind of fault.
fn kind_word(kind: CheckKind) -> &'static [u8]
    ensures { result.now ≡ kind_text kind }
{
    match kind {
        CheckKind::Unbound => b"unbound",
        CheckKind::Unsafe => b"unsafe",
        CheckKind::Sibling => b"sibling",
        CheckKind::Float => b"float",
        CheckKind::Undefined => b"undefined",
        CheckKind::Duplicate => b"duplicate",
        CheckKind::NotExported => b"not_exported",
        CheckKind::BadGuard => b"bad_guard",
    }
}

/// The line of a fault of the file with this name: `NAME: scan fault at byte N`, `NAME: form N line L`, `NAME: line L KIND`
/// or `NAME: not yet`, and a newline. `Err` comes only out of memory.
pub fn fault_text(alloc: Global, name: &str, fault: ModuleFault) -> Result<Bytes, AllocError>
    ensures { IfOk result (λ line. line ≡ fault_line name.now fault) }
{
    let mut line = Bytes::from_slice(alloc, name.as_bytes())?;
    match fault {
        ModuleFault::Scan(fault) => {
            line.extend(b": scan fault at byte ")?;
            line.extend(fault.at.to_string(alloc)?.as_bytes())?;
            line.extend(b"\n")?;
            Ok(line)
        }
        ModuleFault::Form(fault) => {
            line.extend(b": form ")?;
            line.extend(fault.form.to_string(alloc)?.as_bytes())?;
            line.extend(b" line ")?;
            line.extend(fault.line.to_string(alloc)?.as_bytes())?;
            line.extend(b"\n")?;
            Ok(line)
        }
        ModuleFault::Check(fault) => {
            line.extend(b": line ")?;
            line.extend(fault.line.to_string(alloc)?.as_bytes())?;
            line.extend(b" ")?;
            line.extend(kind_word(fault.kind))?;
            line.extend(b"\n")?;
            Ok(line)
        }
        ModuleFault::NotYet => {
            line.extend(b": not yet\n")?;
            Ok(line)
        }
    }
}
