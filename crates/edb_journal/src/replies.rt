//! Replies.

ghost use Rattle.std.specs.Prelude.{◌≡◌, ◌++◌, map, OnOk};
ghost use Rattle.edb_fields.specs.Hexadecimal.{hex_text};
ghost use Rattle.edb_words.specs.Words.{after_spaces};
ghost use Rattle.edb_journal.specs.Replies.{reply_fields};

use edb_event::Reply;
use edb_fields::put_bytes;
use edb_lang::Bytes;
use edb_words::{put_number, put_word, refusal_name, status_name};
use std::alloc::{AllocError, Global};

/// Puts rows, each after a space.
fn put_rows(out: &mut Vec<u8>, rows: &[Bytes]) -> Result<(), AllocError>
    ensures { OnOk result (out.new.items ≡ out.old.items ++ after_spaces (map hex_text rows.now)) }
{
    for row in rows {
        put_bytes(out, row.as_slice())?;
    }
    Ok(())
}

/// Puts the fields of a reply, each after a space. `AllocError` only if out of memory.
pub(crate) fn put_reply(out: &mut Vec<u8>, alloc: Global, reply: &Reply) -> Result<(), AllocError>
    ensures { OnOk result (out.new.items ≡ out.old.items ++ after_spaces (reply_fields reply.now)) }
{
    match reply {
        Reply::Ok => put_word(out, "ok"),
        Reply::Refused(why) => {
            put_word(out, "refused")?;
            put_word(out, refusal_name(*why))
        }
        Reply::Status { pid, status } => {
            put_word(out, "status")?;
            put_number(out, alloc, u64::from(*pid))?;
            put_word(out, status_name(*status))
        }
        Reply::Quiet => put_word(out, "quiet"),
        Reply::Rows(rows) => {
            put_word(out, "rows")?;
            put_number(out, alloc, rows.len() as u64)?;
            put_rows(out, rows.as_slice())
        }
    }
}
