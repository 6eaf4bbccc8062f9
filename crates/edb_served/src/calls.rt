//! Commands.

ghost use Rattle.std.specs.Prelude.{◌≡◌, ◌++◌, ℕ, List, codes, MatchResult, ◌≤◌, ◌+◌, [], ◌∷◌, Some, length, IfOk, IfErr, IfSome};
ghost use Rattle.std.specs.Fmt.{decimal};
ghost use Rattle.edb_event.specs.declared.call.Call.{Call as Spoken};
ghost use Rattle.edb_words.specs.Commands.{call_words};
ghost use Rattle.edb_fields.specs.Separators.{fields};
ghost use Rattle.edb_event.specs.Ranges.{IsArity, IsCall, IsLine, IsNumber};
ghost use Rattle.edb_fields.specs.Answers.{Gives};
ghost use Rattle.edb_fields.specs.Atoms.{IsAtomName};
ghost use Rattle.edb_fields.specs.declared.refusal.ReadError.TheVariants.{Memory};
ghost use Rattle.edb_journal.specs.Wide.{IsWideCall};
ghost use Rattle.edb_served.specs.Calls as spec;
ghost use Rattle.edb_served.specs.Calls.{line_number_at, process_at, place_at, function_at, call_at};

use crate::finding::{read_action, read_flag, read_status, read_trace};
use crate::words::{digit_next, equals_next, read_word};
use edb_event::{AutoFlag, Call};
use edb_fields::{ReadError, read_list, read_name, read_u32};
use edb_lang::{Name, Rows};
use std::alloc::Global;

// The last line and process that a command may name.
const LAST_LINE: u32 = 999_999;

const LAST_PROCESS: u32 = 9_999_999;

// The most flags of a console.
const MOST_FLAGS: u32 = 3;

/// A line of a source, from 1.
fn read_line(bytes: &[u8]) -> Result<(u32, &[u8]), ReadError>
    ensures read { Gives (λ x. (x.0, x.1.now)) result (line_number_at bytes.now) }
    ensures range { IfOk result (λ x. IsLine x.0) }
{
    read_u32(1, LAST_LINE, bytes)
}

/// The number of a process.
fn read_process(bytes: &[u8]) -> Result<(u32, &[u8]), ReadError>
    ensures read { Gives (λ x. (x.0, x.1.now)) result (process_at bytes.now) }
    ensures range { IfOk result (λ x. IsNumber x.0) }
{
    read_u32(0, LAST_PROCESS, bytes)
}

/// A module and a line of it.
fn read_place<'a>(
    alloc: Global,
    scratch: &mut Vec<u8>,
    bytes: &'a [u8],
) -> Result<(Name, u32, &'a [u8]), ReadError>
    ensures read { Gives (λ x. (x.0, x.1, x.2.now)) result (place_at bytes.now) }
    ensures range { IfOk result (λ x. IsAtomName x.0 × IsLine x.1) }
{
    let (module, after) = read_name(alloc, scratch, bytes)?;
    let (line, rest) = read_line(after)?;
    Ok((module, line, rest))
}

/// A function, of whatever module, and its arity.
fn read_function<'a>(
    alloc: Global,
    scratch: &mut Vec<u8>,
    bytes: &'a [u8],
) -> Result<(Name, u32, &'a [u8]), ReadError>
    ensures read { Gives (λ x. (x.0, x.1, x.2.now)) result (function_at bytes.now) }
    ensures range { IfOk result (λ x. IsAtomName x.0 × IsArity x.1) }
{
    let (name, after) = read_name(alloc, scratch, bytes)?;
    let (arity, rest) = read_u32(0, 255, after)?;
    Ok((name, arity, rest))
}

/// `start`: a function and the list of its arguments.
fn start<'a>(
    alloc: Global,
    scratch: &mut Vec<u8>,
    bytes: &'a [u8],
) -> Result<(Call, &'a [u8]), ReadError>
    ensures read { Gives (λ x. (x.0, x.1.now)) result (spec.start_call_at bytes.now) }
    ensures range { IfOk result (λ x. IsCall x.0 × IsWideCall x.0) }
{
    let (module, after) = read_name(alloc, scratch, bytes)?;
    let (name, from) = read_name(alloc, scratch, after)?;
    let (args, rest) = read_list(alloc, scratch, from)?;
    Ok((Call::Start { module, name, args }, rest))
}

/// `load`: a module and a version.
fn load<'a>(
    alloc: Global,
    scratch: &mut Vec<u8>,
    bytes: &'a [u8],
) -> Result<(Call, &'a [u8]), ReadError>
    ensures read { Gives (λ x. (x.0, x.1.now)) result (spec.load_call_at bytes.now) }
    ensures range { IfOk result (λ x. IsCall x.0 × IsWideCall x.0) }
{
    let (module, after) = read_name(alloc, scratch, bytes)?;
    let (version, rest) = read_u32(1, 999, after)?;
    Ok((Call::Load { module, version }, rest))
}

/// `ib`: at a line, or at the clauses of a function.
fn set<'a>(
    alloc: Global,
    scratch: &mut Vec<u8>,
    bytes: &'a [u8],
) -> Result<(Call, &'a [u8]), ReadError>
    ensures read { Gives (λ x. (x.0, x.1.now)) result (spec.set_at bytes.now) }
    ensures range { IfOk result (λ x. IsCall x.0 × IsWideCall x.0) }
{
    let (module, after) = read_name(alloc, scratch, bytes)?;
    if digit_next(after) {
        let (line, rest) = read_line(after)?;
        return Ok((Call::Ib { module, line }, rest));
    }
    let (name, arity, rest) = read_function(alloc, scratch, after)?;
    let call = Call::IbIn {
        module,
        name,
        arity,
    };
    Ok((call, rest))
}

/// `ir`: all, those of a module, at a line, or at the clauses of a function.
fn delete<'a>(
    alloc: Global,
    scratch: &mut Vec<u8>,
    bytes: &'a [u8],
) -> Result<(Call, &'a [u8]), ReadError>
    ensures read { Gives (λ x. (x.0, x.1.now)) result (spec.delete_at bytes.now) }
    ensures range { IfOk result (λ x. IsCall x.0 × IsWideCall x.0) }
{
    if equals_next(bytes) {
        return Ok((Call::IrAll, bytes));
    }
    let (module, after) = read_name(alloc, scratch, bytes)?;
    if equals_next(after) {
        return Ok((Call::IrModule { module }, after));
    }
    if digit_next(after) {
        let (line, rest) = read_line(after)?;
        return Ok((Call::Ir { module, line }, rest));
    }
    let (name, arity, rest) = read_function(alloc, scratch, after)?;
    let call = Call::IrIn {
        module,
        name,
        arity,
    };
    Ok((call, rest))
}

/// `ipb`: all, or those of a module.
fn breaks<'a>(
    alloc: Global,
    scratch: &mut Vec<u8>,
    bytes: &'a [u8],
) -> Result<(Call, &'a [u8]), ReadError>
    ensures read { Gives (λ x. (x.0, x.1.now)) result (spec.breaks_at bytes.now) }
    ensures range { IfOk result (λ x. IsCall x.0 × IsWideCall x.0) }
{
    if equals_next(bytes) {
        return Ok((Call::Ipb, bytes));
    }
    let (module, rest) = read_name(alloc, scratch, bytes)?;
    Ok((Call::IpbModule { module }, rest))
}

/// `iba`: a line, and what becomes of its breakpoint.
fn trigger<'a>(
    alloc: Global,
    scratch: &mut Vec<u8>,
    bytes: &'a [u8],
) -> Result<(Call, &'a [u8]), ReadError>
    ensures read { Gives (λ x. (x.0, x.1.now)) result (spec.trigger_call_at bytes.now) }
    ensures range { IfOk result (λ x. IsCall x.0 × IsWideCall x.0) }
{
    let (module, line, after) = read_place(alloc, scratch, bytes)?;
    let (action, rest) = read_action(after)?;
    let call = Call::Iba {
        module,
        line,
        action,
    };
    Ok((call, rest))
}

/// `ibc`: a line, and the module and the name of its condition.
fn condition<'a>(
    alloc: Global,
    scratch: &mut Vec<u8>,
    bytes: &'a [u8],
) -> Result<(Call, &'a [u8]), ReadError>
    ensures read { Gives (λ x. (x.0, x.1.now)) result (spec.condition_call_at bytes.now) }
    ensures range { IfOk result (λ x. IsCall x.0 × IsWideCall x.0) }
{
    let (module, line, after) = read_place(alloc, scratch, bytes)?;
    let (home, from) = read_name(alloc, scratch, after)?;
    let (name, rest) = read_name(alloc, scratch, from)?;
    let call = Call::Ibc {
        module,
        line,
        cond: (home, name),
    };
    Ok((call, rest))
}

/// The flags up to the equals sign, at most so many.
fn read_flags(alloc: Global, most: u32, bytes: &[u8]) -> Result<(Rows<AutoFlag>, &[u8]), ReadError>
    ensures read { Gives (λ x. (x.0, x.1.now)) result (spec.flags_at most [] bytes.now) }
    ensures range { IfOk result (λ x. length x.0 ≤ most) }
{
    let mut found = Vec::new(alloc);
    let mut rest = bytes;
    let mut turns = most;
    while turns > 0 {
        if equals_next(rest) {
            return Ok((Rows::from_vec(found), rest));
        }
        let (flag, after) = read_flag(rest)?;
        found.push(flag)?;
        rest = after;
        turns -= 1;
    }
    Ok((Rows::from_vec(found), rest))
}

/// `iaa`: the word for no flag, or flags.
fn attach(alloc: Global, bytes: &[u8]) -> Result<(Call, &[u8]), ReadError>
    ensures read { Gives (λ x. (x.0, x.1.now)) result (spec.attach_at bytes.now) }
    ensures range { IfOk result (λ x. IsCall x.0 × IsWideCall x.0) }
{
    let (word, after) = read_word(bytes)?;
    if word == b"false".as_slice() {
        let flags = Rows::from_vec(Vec::new(alloc));
        return Ok((Call::Iaa { flags }, after));
    }
    let (flags, rest) = read_flags(alloc, MOST_FLAGS, bytes)?;
    Ok((Call::Iaa { flags }, rest))
}

/// `ist`: the word for saved calls.
fn traced(bytes: &[u8]) -> Result<(Call, &[u8]), ReadError>
    ensures read { Gives (λ x. (x.0, x.1.now)) result (spec.trace_call_at bytes.now) }
    ensures range { IfOk result (λ x. IsCall x.0 × IsWideCall x.0) }
{
    let (word, rest) = read_trace(bytes)?;
    Ok((Call::Ist { word }, rest))
}

/// The status of any process.
fn await_any(bytes: &[u8]) -> Result<(Call, &[u8]), ReadError>
    ensures read { Gives (λ x. (x.0, x.1.now)) result (spec.any_status_at bytes.now) }
    ensures range { IfOk result (λ x. IsCall x.0 × IsWideCall x.0) }
{
    let (status, rest) = read_status(bytes)?;
    Ok((Call::AwaitAny { status }, rest))
}

/// A process and its status.
fn await_process(bytes: &[u8]) -> Result<(Call, &[u8]), ReadError>
    ensures read { Gives (λ x. (x.0, x.1.now)) result (spec.process_status_at bytes.now) }
    ensures range { IfOk result (λ x. IsCall x.0 × IsWideCall x.0) }
{
    let (pid, after) = read_process(bytes)?;
    let (status, rest) = read_status(after)?;
    Ok((Call::Await { pid, status }, rest))
}

/// `await`: the status of a process, or of any.
fn awaited(bytes: &[u8]) -> Result<(Call, &[u8]), ReadError>
    ensures read { Gives (λ x. (x.0, x.1.now)) result (spec.await_at bytes.now) }
    ensures range { IfOk result (λ x. IsCall x.0 × IsWideCall x.0) }
{
    if digit_next(bytes) {
        return await_process(bytes);
    }
    let (word, after) = read_word(bytes)?;
    if word == b"any".as_slice() {
        return await_any(after);
    }
    Err(ReadError::Refused)
}

/// The command of this word about a process.
fn about(word: &[u8], pid: u32) -> Option<Call>
    ensures same { result ≡ spec.about word.now pid }
    ensures range { IfSome result (λ c. IsNumber pid → IsCall c × IsWideCall c) }
{
    if word == b"ia".as_slice() {
        return Some(Call::Ia { pid });
    }
    if word == b"detach".as_slice() {
        return Some(Call::Detach { pid });
    }
    if word == b"step".as_slice() {
        return Some(Call::Step { pid });
    }
    if word == b"next".as_slice() {
        return Some(Call::Next { pid });
    }
    if word == b"finish".as_slice() {
        return Some(Call::Finish { pid });
    }
    if word == b"halt".as_slice() {
        return Some(Call::Halt { pid });
    }
    if word == b"continue".as_slice() {
        return Some(Call::Continue { pid });
    }
    if word == b"bindings".as_slice() {
        return Some(Call::Bindings { pid });
    }
    if word == b"frames".as_slice() {
        return Some(Call::Frames { pid });
    }
    None
}

/// A command about a process.
fn about_process<'a>(word: &[u8], bytes: &'a [u8]) -> Result<(Call, &'a [u8]), ReadError>
    ensures read { Gives (λ x. (x.0, x.1.now)) result (spec.about_at word.now bytes.now) }
    ensures range { IfOk result (λ x. IsCall x.0 × IsWideCall x.0) }
{
    let (pid, rest) = read_process(bytes)?;
    match about(word, pid) {
        Some(call) => Ok((call, rest)),
        None => Err(ReadError::Refused),
    }
}

/// A command with words of its own, or with none; else one about a process.
fn other<'a>(alloc: Global, word: &[u8], bytes: &'a [u8]) -> Result<(Call, &'a [u8]), ReadError>
    ensures read { Gives (λ x. (x.0, x.1.now)) result (spec.other_at word.now bytes.now) }
    ensures range { IfOk result (λ x. IsCall x.0 × IsWideCall x.0) }
{
    if word == b"il".as_slice() {
        return Ok((Call::Il, bytes));
    }
    if word == b"ip".as_slice() {
        return Ok((Call::Ip, bytes));
    }
    if word == b"ic".as_slice() {
        return Ok((Call::Ic, bytes));
    }
    if word == b"quit".as_slice() {
        return Ok((Call::Quit, bytes));
    }
    if word == b"iaa".as_slice() {
        return attach(alloc, bytes);
    }
    if word == b"ist".as_slice() {
        return traced(bytes);
    }
    if word == b"await".as_slice() {
        return awaited(bytes);
    }
    about_process(word, bytes)
}

/// A command about a breakpoint; else another.
fn about_break<'a>(
    alloc: Global,
    scratch: &mut Vec<u8>,
    word: &[u8],
    bytes: &'a [u8],
) -> Result<(Call, &'a [u8]), ReadError>
    ensures read { Gives (λ x. (x.0, x.1.now)) result (spec.break_at word.now bytes.now) }
    ensures range { IfOk result (λ x. IsCall x.0 × IsWideCall x.0) }
{
    if word == b"ibd".as_slice() {
        let (module, line, rest) = read_place(alloc, scratch, bytes)?;
        return Ok((Call::Ibd { module, line }, rest));
    }
    if word == b"ibe".as_slice() {
        let (module, line, rest) = read_place(alloc, scratch, bytes)?;
        return Ok((Call::Ibe { module, line }, rest));
    }
    if word == b"iba".as_slice() {
        return trigger(alloc, scratch, bytes);
    }
    if word == b"ibc".as_slice() {
        return condition(alloc, scratch, bytes);
    }
    other(alloc, word, bytes)
}

/// The command that begins with this word.
fn command<'a>(
    alloc: Global,
    scratch: &mut Vec<u8>,
    word: &[u8],
    bytes: &'a [u8],
) -> Result<(Call, &'a [u8]), ReadError>
    ensures read { Gives (λ x. (x.0, x.1.now)) result (spec.command_at word.now bytes.now) }
    ensures range { IfOk result (λ x. IsCall x.0 × IsWideCall x.0) }
{
    if word == b"start".as_slice() {
        return start(alloc, scratch, bytes);
    }
    if word == b"load".as_slice() {
        return load(alloc, scratch, bytes);
    }
    if word == b"ii".as_slice() {
        let (module, rest) = read_name(alloc, scratch, bytes)?;
        return Ok((Call::Ii { module }, rest));
    }
    if word == b"iq".as_slice() {
        let (module, rest) = read_name(alloc, scratch, bytes)?;
        return Ok((Call::Iq { module }, rest));
    }
    if word == b"ib".as_slice() {
        return set(alloc, scratch, bytes);
    }
    if word == b"ir".as_slice() {
        return delete(alloc, scratch, bytes);
    }
    if word == b"ipb".as_slice() {
        return breaks(alloc, scratch, bytes);
    }
    about_break(alloc, scratch, word, bytes)
}

/// The command that comes next.
#[tactic(auto, unfolding(crate::specs::Calls::call_at))]
fn spoken<'a>(
    alloc: Global,
    scratch: &mut Vec<u8>,
    bytes: &'a [u8],
) -> Result<(Call, &'a [u8]), ReadError>
    ensures read { Gives (λ x. (x.0, x.1.now)) result (call_at bytes.now) }
    ensures range { IfOk result (λ x. IsCall x.0 × IsWideCall x.0) }
{
    let (word, rest) = read_word(bytes)?;
    command(alloc, scratch, word, rest)
}

/// The command that comes next, after one space, and what comes after it, where that is an equals sign. Each command in
/// range is read as it was written, unless memory runs out. What is read is in range; its spelling isn't judged: who reads
/// it writes it again and compares. The scratch is overwritten.
pub fn read_call<'a>(
    alloc: Global,
    scratch: &mut Vec<u8>,
    bytes: &'a [u8],
) -> Result<(Call, &'a [u8]), ReadError>
    ensures read { Gives (λ x. (x.0, x.1.now)) result (call_at bytes.now) }
    ensures range { IfOk result (λ x. IsCall x.0 × IsWideCall x.0) }
    ensures written { (x : Spoken) (fs : List (List ℕ)) (rest : List ℕ) → IsCall x → IsWideCall x
        → bytes.now ≡ fields (call_words decimal x ++ (codes "=" ∷ fs)) ++ rest
        → MatchResult result (λ r. (r.0 ≡ x) × (r.1.now ≡ fields (codes "=" ∷ fs) ++ rest)) (λ e. e ≡ Memory) }
{
    spoken(alloc, scratch, bytes)
}
