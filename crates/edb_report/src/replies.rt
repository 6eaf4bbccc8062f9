//! The texts of replies.

ghost use Rattle.std.specs.Prelude.{◌≡◌, ◌++◌, OnOk, codes};
ghost use Rattle.std.specs.List.{flat_map};
ghost use Rattle.edb_report.specs.Replies.{reply_text, rows_text};

use edb_event::Reply;
use edb_lang::Bytes;
use edb_words::{ProcessForm, put_pid, put_text, put_word, refusal_name, status_name};
use std::alloc::{AllocError, Global};

// Puts a reply, its rows on lines of their own; the last line isn't ended.
pub(crate) fn put_reply(out: &mut Vec<u8>, alloc: Global, reply: &Reply) -> Result<(), AllocError>
    ensures { OnOk result (out.new.items ≡ out.old.items ++ reply_text reply.now) }
{
    match reply {
        Reply::Ok => put_text(out, "ok"),
        Reply::Refused(why) => put_text(out, refusal_name(*why)),
        Reply::Status { pid, status } => {
            put_pid(out, alloc, *pid, ProcessForm::Angled)?;
            put_word(out, status_name(*status))
        }
        Reply::Quiet => put_text(out, "quiet"),
        Reply::Rows(rows) => put_rows(out, alloc, rows.as_slice()),
    }
}

// Puts how many rows there are, and each on a line of its own.
fn put_rows(out: &mut Vec<u8>, alloc: Global, rows: &[Bytes]) -> Result<(), AllocError>
    ensures { OnOk result (out.new.items ≡ out.old.items ++ rows_text rows.now) }
{
    put_text(out, rows.len().to_string(alloc)?.as_str())?;
    put_text(out, " rows")?;
    put_each_row(out, rows)
}

// Puts rows, each after a line's end.
fn put_each_row(out: &mut Vec<u8>, rows: &[Bytes]) -> Result<(), AllocError>
    ensures { OnOk result (out.new.items ≡ out.old.items
        ++ flat_map (λ row. codes "\n" ++ row) rows.now) }
{
    for row in rows {
        put_text(out, "\n")?;
        out.extend_from_slice(row.as_slice())?;
    }
    Ok(())
}
