//! Replies.

ghost use Rattle.std.specs.Prelude.{◌≡◌, ◌++◌, ℕ, List, codes, MatchResult, ◌+◌, [], Some, length, IfOk};
ghost use Rattle.edb_event.specs.Ranges.{IsReply};
ghost use Rattle.edb_event.specs.declared.reply.Reply.{Reply as Answer};
ghost use Rattle.edb_fields.specs.Separators.{fields};
ghost use Rattle.edb_fields.specs.declared.refusal.ReadError.TheVariants.{Memory};
ghost use Rattle.edb_journal.specs.Replies.{reply_fields};
ghost use Rattle.edb_fields.specs.Answers.{Gives};
ghost use Rattle.edb_journal.specs.Wide.{IsWideReply, AreRows};
ghost use Rattle.edb_served.specs.Answers as spec;
ghost use Rattle.edb_served.specs.Answers.{rows_at, reply_at};

use crate::finding::{read_refusal, read_status};
use crate::words::read_word;
use edb_event::Reply;
use edb_fields::{ReadError, read_bytes, read_u32, read_u64};
use edb_lang::{Bytes, Rows};
use std::alloc::Global;

/// So many rows.
fn read_rows(alloc: Global, count: u64, bytes: &[u8]) -> Result<(Vec<Bytes>, &[u8]), ReadError>
    ensures read { Gives (λ x. (x.0.items, x.1.now)) result (rows_at count [] bytes.now) }
    ensures count { IfOk result (λ x. length x.0.items ≡ count) }
    ensures range { IfOk result (λ x. AreRows x.0.items) }
{
    let mut found = Vec::new(alloc);
    let mut rest = bytes;
    let mut more = count;
    while more > 0 {
        let (row, after) = read_bytes(alloc, rest)?;
        found.push(row)?;
        rest = after;
        more -= 1;
    }
    Ok((found, rest))
}

/// A refusal.
fn refused(bytes: &[u8]) -> Result<(Reply, &[u8]), ReadError>
    ensures read { Gives (λ x. (x.0, x.1.now)) result (spec.refused_at bytes.now) }
    ensures range { IfOk result (λ x. IsReply x.0 × IsWideReply x.0) }
{
    let (why, rest) = read_refusal(bytes)?;
    Ok((Reply::Refused(why), rest))
}

/// A process and its status.
fn process_status(bytes: &[u8]) -> Result<(Reply, &[u8]), ReadError>
    ensures read { Gives (λ x. (x.0, x.1.now)) result (spec.process_status_at bytes.now) }
    ensures range { IfOk result (λ x. IsReply x.0 × IsWideReply x.0) }
{
    let (pid, after) = read_u32(0, u32::MAX, bytes)?;
    let (status, rest) = read_status(after)?;
    Ok((Reply::Status { pid, status }, rest))
}

/// Rows, after their number.
fn table(alloc: Global, bytes: &[u8]) -> Result<(Reply, &[u8]), ReadError>
    ensures read { Gives (λ x. (x.0, x.1.now)) result (spec.table_at bytes.now) }
    ensures range { IfOk result (λ x. IsReply x.0 × IsWideReply x.0) }
{
    let (count, after) = read_u64(0, u64::MAX, bytes)?;
    let (rows, rest) = read_rows(alloc, count, after)?;
    Ok((Reply::Rows(Rows::from_vec(rows)), rest))
}

/// The reply that comes next.
#[tactic(auto, unfolding(crate::specs::Answers::reply_at))]
fn answered(alloc: Global, bytes: &[u8]) -> Result<(Reply, &[u8]), ReadError>
    ensures read { Gives (λ x. (x.0, x.1.now)) result (reply_at bytes.now) }
    ensures range { IfOk result (λ x. IsReply x.0 × IsWideReply x.0) }
{
    let (word, rest) = read_word(bytes)?;
    if word == b"ok".as_slice() {
        return Ok((Reply::Ok, rest));
    }
    if word == b"quiet".as_slice() {
        return Ok((Reply::Quiet, rest));
    }
    if word == b"refused".as_slice() {
        return refused(rest);
    }
    if word == b"status".as_slice() {
        return process_status(rest);
    }
    if word == b"rows".as_slice() {
        return table(alloc, rest);
    }
    Err(ReadError::Refused)
}

/// The reply that comes next, after one space, and what comes after it. Each reply of the first version that ends its line
/// is read as it was written, unless memory runs out. What is read is in range; its spelling isn't judged: who reads it
/// writes it again and compares.
pub fn read_reply(alloc: Global, bytes: &[u8]) -> Result<(Reply, &[u8]), ReadError>
    ensures read { Gives (λ x. (x.0, x.1.now)) result (reply_at bytes.now) }
    ensures range { IfOk result (λ x. IsReply x.0 × IsWideReply x.0) }
    ensures written { (r : Answer) (rest : List ℕ) → IsReply r → IsWideReply r → bytes.now ≡ fields (reply_fields r) ++ rest
        → MatchResult result (λ x. (x.0 ≡ r) × (x.1.now ≡ codes "\n" ++ rest)) (λ e. e ≡ Memory) }
{
    answered(alloc, bytes)
}
