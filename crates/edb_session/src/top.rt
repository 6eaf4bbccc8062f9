//! The session.

ghost use Rattle.std.specs.Prelude.{◌≡◌, ◌≤◌, ◌<◌, ◌^◌, ◌+◌, ◌⊎◌, map, string_bytes, length, [], ◌∷◌, Some, IfOk, IfErr, MatchOption};
ghost use Rattle.edb_files.specs.Asking.{asked_of};
ghost use Rattle.edb_files.specs.InOrder.{AreRead, ReadsUp, text_file};
ghost use Rattle.edb_files.specs.Lines.{TriesLine};
ghost use Rattle.edb_cmds.specs.Listing.{IsScriptOf};
ghost use Rattle.edb_event.specs.Ranges.{AreCommands};
ghost use Rattle.edb_model.specs.Plain.{no_tables};
ghost use Rattle.edb_options.specs.Options.{IsRanged, options_in};
ghost use Rattle.edb_options.specs.Seeing.{wanted_of};
ghost use Rattle.edb_small.specs.SmallModule.{IsModule};
ghost use Rattle.edb_session.specs.Reading.{files_of, AreModules, IsFaultOf, IsNoModule, IsAccepted, ReadsSome};
ghost use Rattle.edb_session.specs.Runs.{plan_with, IsRun};
ghost use Rattle.edb_session.specs.Ends.{HasCause, Leaves, Performed, IsText, IsEmpty, IsWritten, IsRefusalWritten, KeepsFlag, IsRefusal, RefusesTexts, RefusesAll, IsRefusedFor, name_at, refusal_line, status_of};
ghost use Rattle.edb_session.specs.Exact.{WordsExactly, ModuleExactly, ScriptExactly, DoneExactly, LimitExactly, IsComplete};
ghost use Rattle.edb_session.specs.Texts.{form_by, text_in};
ghost use Rattle.edb_session.specs.Views.{texts_of};
ghost use Rattle.edb_world.specs.Plans.{IsPlan};
ghost use Rattle.edb_world.specs.Outcomes.{IsOverBy};

use crate::render::write_entries;
use crate::{End, Ending};
use edb_cmds::{one_listing, read_commands};
use edb_event::{Command, Journal};
use edb_files::{AskedFile, LineWrite, MOST_BYTES, ReadsFault, read_in_order, write_line};
use edb_io::{Files, Sink, SinkFault};
use edb_lang::{Bytes, Module, Rows};
use edb_model::{Checked, Code, Tables};
use edb_options::{Options, Request, read_options};
use edb_small::{modules_are_bounded, one_module, read_module};
use edb_verdict::{ModuleFault, fault_text, one_verdict_a_text, verdict};
use edb_world::{Outcome, run_world};
use std::alloc::{AllocError, Global};

/// What was read and accepted.
#[derive(Drop)]
struct Accepted {
    code: Code,
    commands: Vec<Command>,
}

/// The files that are read: the script, and then the FILEs.
fn asked_files<'a>(alloc: Global, names: &[&'a str]) -> Result<Vec<AskedFile<'a>>, AllocError>
    ensures files { IfOk result (λ files. map asked_of files.items ≡ map text_file (texts_of names.now)) }
    ensures all { IfOk result (λ files. length files.items ≡ length names.now) }
{
    let mut files = Vec::new(alloc);
    for name in names {
        files.push(AskedFile {
            name: *name,
            most: MOST_BYTES,
        })?;
    }
    Ok(files)
}

/// Reads the script and then the FILEs; else tells how the session ends.
fn read_files<F: Files>(
    alloc: Global,
    request: &Request<'_>,
    files: &mut F,
) -> Result<Vec<Bytes>, End>
    requires { length request.now.names.items < 2 ^ 32 }
    ensures ok { IfOk result (λ texts. AreRead (files_of (wanted_of request.now)) (F.reads files.old) (F.reads files.new) texts.items) }
    ensures err { IfErr result (λ end. HasCause (Some (wanted_of request.now)) (F.reads files.old) (F.reads files.new) (F.faults files.old) (F.faults files.new) end) }
    ensures refusal { IfErr result IsRefusal }
    ensures reads { ReadsUp (files_of (wanted_of request.now)) (F.reads files.old) (F.reads files.new) }
{
    let Ok(asked) = asked_files(alloc, request.names.as_slice()) else {
        return Err(End::NoMemory);
    };
    match read_in_order(alloc, asked.as_slice(), files) {
        Ok(texts) => Ok(texts),
        Err(ReadsFault::Failed { file }) => Err(End::FileFault { file }),
        Err(ReadsFault::NoMemory) => Err(End::NoMemory),
    }
}

/// The first fault of a text; that the debugger doesn't run such a module yet, where it has none.
fn fault_of(alloc: Global, text: &Bytes) -> Result<ModuleFault, AllocError>
    ensures { IfOk result (λ fault. IsFaultOf text.now fault) }
{
    match verdict(alloc, text.as_slice())? {
        Ok(_checked) => Ok(ModuleFault::NotYet),
        Err(fault) => Ok(fault),
    }
}

/// The module that a text holds, where it is one of the small language.
fn find_module(alloc: Global, text: &Bytes) -> Result<Option<Module>, AllocError>
    ensures { IfOk result (λ found. MatchOption found (IsNoModule text.now) (λ m. IsModule text.now m)) }
{
    read_module(alloc, text.as_slice())
}

/// How the session ends for this FILE, which isn't of the small language.
fn module_refused(alloc: Global, text: &Bytes, file: u32) -> End
    ensures { IsRefusedFor text.now file result }
{
    match fault_of(alloc, text) {
        Ok(fault) => End::ModuleRefused { file, fault },
        Err(_) => End::NoMemory,
    }
}

/// The modules that these FILEs hold; else tells how the session ends, by the first that holds none.
fn read_modules(alloc: Global, texts: &[Bytes]) -> Result<Code, End>
    requires { length texts.now + 1 < 2 ^ 32 }
    ensures ok { IfOk result (λ code. AreModules texts.now code) }
    ensures err { IfErr result (λ end. RefusesTexts texts.now end) }
{
    let mut code = Code::new(alloc);
    let mut file = 0;
    for text in texts {
        file += 1;
        match find_module(alloc, text) {
            Ok(Some(module)) => match code.add(Checked::new(module)) {
                Ok(_) => {}
                Err(_) => return Err(End::NoMemory),
            },
            Ok(None) => return Err(module_refused(alloc, text, file)),
            Err(_) => return Err(End::NoMemory),
        }
    }
    Ok(code)
}

/// Accepts the modules and then the script; else tells how the session ends.
fn accept(alloc: Global, script: &Bytes, texts: &[Bytes]) -> Result<Accepted, End>
    requires { length texts.now + 1 < 2 ^ 32 }
    ensures modules { IfOk result (λ a. AreModules texts.now a.code) }
    ensures script { IfOk result (λ a. IsScriptOf script.now a.commands.items) }
    ensures ranges { IfOk result (λ a. AreCommands a.commands.items) }
    ensures err { IfErr result (λ end. RefusesAll script.now texts.now end) }
{
    let code = match read_modules(alloc, texts) {
        Ok(code) => code,
        Err(end) => return Err(end),
    };
    match read_commands(alloc, script.as_slice()) {
        Ok(Ok(commands)) => Ok(Accepted { code, commands }),
        Ok(Err(fault)) => Err(End::ScriptRefused { line: fault.line }),
        Err(_) => Err(End::NoMemory),
    }
}

/// Reads the script and then the FILEs, and accepts the modules and then the script; else tells how the session ends.
fn prepare<F: Files>(alloc: Global, request: &Request<'_>, files: &mut F) -> Result<Accepted, End>
    requires few { length request.now.names.items < 2 ^ 32 }
    requires enough { 2 ≤ length request.now.names.items }
    requires ranges { IsRanged request.now.options }
    ensures ok { IfOk result (λ a. IsAccepted (wanted_of request.now) (F.reads files.old) (F.reads files.new) (plan_with request.now.options a.code a.commands.items)) }
    ensures plan { IfOk result (λ a. IsPlan (plan_with request.now.options a.code a.commands.items)) }
    ensures err { IfErr result (λ end. HasCause (Some (wanted_of request.now)) (F.reads files.old) (F.reads files.new) (F.faults files.old) (F.faults files.new) end) }
    ensures refusal { IfErr result IsRefusal }
    ensures reads { ReadsUp (files_of (wanted_of request.now)) (F.reads files.old) (F.reads files.new) }
{
    modules_are_bounded();
    let texts = match read_files(alloc, request, files) {
        Ok(texts) => texts,
        Err(end) => return Err(end),
    };
    let texts = texts.as_slice();
    accept(alloc, &texts[0], &texts[1..])
}

/// The tables where nothing was run.
fn empty_tables(alloc: Global) -> Tables
    ensures { result ≡ no_tables }
{
    Tables {
        processes: Rows::new(alloc),
        names: Rows::new(alloc),
        signals: Rows::new(alloc),
        clock: 0,
        output: Bytes::new(alloc),
    }
}

/// An ending at which nothing was run.
fn empty_ending(alloc: Global, end: End, status: u8) -> Ending
    ensures end { result.end ≡ end }
    ensures status { result.status ≡ status }
    ensures empty { IsEmpty result.journal.entries result.tables }
{
    Ending {
        end,
        journal: Journal::new(alloc),
        tables: empty_tables(alloc),
        status,
    }
}

/// An ending with what a run left.
fn ending_of(end: End, status: u8, journal: Journal, tables: Tables) -> Ending
    ensures { result ≡ record { end = end; journal = journal; tables = tables; status = status } }
{
    Ending {
        end,
        journal,
        tables,
        status,
    }
}

/// Runs what was accepted.
#[tactic(auto, using(crate::proofs::Leaving::is_run))]
fn run_accepted(alloc: Global, options: Options, accepted: &Accepted) -> Result<Outcome, AllocError>
    requires { IsPlan (plan_with options accepted.now.code accepted.now.commands.items) }
    ensures run { IfOk result (λ left. IsRun (plan_with options accepted.now.code accepted.now.commands.items) left.journal.entries left.tables) }
    ensures over { IfOk result (λ left. IsOverBy (plan_with options accepted.now.code accepted.now.commands.items) left.limit left.journal.entries) }
{
    run_world(
        alloc,
        &accepted.code,
        &accepted.commands,
        options.slice,
        options.moves,
    )
}

/// Runs what was accepted, and writes its journal in the form that the options ask for.
fn perform<S: Sink>(
    alloc: Global,
    options: Options,
    accepted: &Accepted,
    mut sink: S,
) -> (Ending, S)
    requires { IsPlan (plan_with options accepted.now.code accepted.now.commands.items) }
    ensures run { Performed (plan_with options accepted.now.code accepted.now.commands.items) result.0.journal.entries result.0.tables result.0.end }
    ensures written { IsText (text_in (form_by options.journal) result.0.journal.entries) (S.written sink) (S.written result.1) (S.faults sink) (S.faults result.1) result.0.end }
    ensures flag { KeepsFlag (S.flagged sink) (S.flagged result.1) result.0.end }
    ensures status { result.0.status ≡ status_of result.0.end }
{
    let Ok(outcome) = run_accepted(alloc, options, accepted) else {
        return (empty_ending(alloc, End::NoMemory, 8), sink);
    };
    let Outcome {
        journal,
        tables,
        limit,
    } = outcome;
    match write_entries(alloc, options.journal, journal.entries(), &mut sink) {
        Ok(()) => {
            if limit {
                return (ending_of(End::Limit, 6, journal, tables), sink);
            }
            (ending_of(End::Done, 0, journal, tables), sink)
        }
        Err(SinkFault::Failed) => (ending_of(End::WriteFault, 7, journal, tables), sink),
        Err(SinkFault::NoMemory) => (ending_of(End::NoMemory, 8, journal, tables), sink),
    }
}

/// The name of a file, counted from the script.
fn file_name<'a>(names: &[&'a str], file: u32) -> &'a str
    ensures { result.now ≡ name_at (texts_of names.now) file }
{
    match names.get(file as usize) {
        Some(name) => *name,
        None => "",
    }
}

/// The line of a refusal.
fn refusal_text(alloc: Global, names: &[&str], end: End) -> Result<Bytes, AllocError>
    ensures { IfOk result (λ line. line ≡ refusal_line (texts_of names.now) end) }
{
    let mut line = Bytes::new(alloc);
    match end {
        End::Words => {
            line.extend(b"edb: words\n")?;
            Ok(line)
        }
        End::FileFault { file } => {
            line.extend(b"edb: cannot read ")?;
            line.extend(file_name(names, file).as_bytes())?;
            line.extend(b"\n")?;
            Ok(line)
        }
        End::ModuleRefused { file, fault } => fault_text(alloc, file_name(names, file), fault),
        End::ScriptRefused { line: number } => {
            line.extend(file_name(names, 0).as_bytes())?;
            line.extend(b": line ")?;
            line.extend(number.to_string(alloc)?.as_bytes())?;
            line.extend(b"\n")?;
            Ok(line)
        }
        End::Done => Ok(line),
        End::Limit => Ok(line),
        End::WriteFault => Ok(line),
        End::NoMemory => Ok(line),
    }
}

/// Writes the line of a refusal.
fn write_refusal<S: Sink>(alloc: Global, names: &[&str], end: End, sink: &mut S) -> LineWrite
    ensures { TriesLine (refusal_line (texts_of names.now) end) (S.written sink.old) (S.written sink.new) (S.faults sink.old) (S.faults sink.new) (S.flagged sink.old) (S.flagged sink.new) result }
{
    match refusal_text(alloc, names, end) {
        Err(_) => LineWrite::NoMemory,
        Ok(line) => write_line(&line, sink),
    }
}

/// The status of an end.
fn status(end: End) -> u8
    ensures { result ≡ status_of end }
{
    match end {
        End::Done => 0,
        End::Words => 2,
        End::FileFault { .. } => 3,
        End::ModuleRefused { .. } => 4,
        End::ScriptRefused { .. } => 5,
        End::Limit => 6,
        End::WriteFault => 7,
        End::NoMemory => 8,
    }
}

/// Writes the line of a refusal, and ends so; a fault of that write changes nothing.
fn refuse<S: Sink>(alloc: Global, names: &[&str], end: End, mut sink: S) -> (Ending, S)
    requires { IsRefusal end }
    ensures end { (result.0.end ≡ end) ⊎ (result.0.end ≡ End.NoMemory) }
    ensures empty { IsEmpty result.0.journal.entries result.0.tables }
    ensures written { IsRefusalWritten (texts_of names.entry.now) (S.written sink) (S.written result.1) (S.faults sink) (S.faults result.1) (S.flagged sink) (S.flagged result.1) result.0.end }
    ensures flag { KeepsFlag (S.flagged sink) (S.flagged result.1) result.0.end }
    ensures status { result.0.status ≡ status_of result.0.end }
{
    match write_refusal(alloc, names, end, &mut sink) {
        LineWrite::Tried => (empty_ending(alloc, end, status(end)), sink),
        LineWrite::NoMemory => (empty_ending(alloc, End::NoMemory, 8), sink),
    }
}

/// Runs what the words ask for.
fn run_request<F: Files, S: Sink>(
    alloc: Global,
    request: &Request<'_>,
    files: &mut F,
    sink: S,
) -> (Ending, S)
    requires few { length request.now.names.items < 2 ^ 32 }
    requires enough { 2 ≤ length request.now.names.items }
    requires ranges { IsRanged request.now.options }
    ensures cause { HasCause (Some (wanted_of request.now)) (F.reads files.old) (F.reads files.new) (F.faults files.old) (F.faults files.new) result.0.end }
    ensures run { Leaves (Some (wanted_of request.now)) (F.reads files.old) (F.reads files.new) result.0.journal.entries result.0.tables result.0.end }
    ensures written { IsWritten (Some (wanted_of request.now)) result.0.journal.entries (S.written sink) (S.written result.1) (S.faults sink) (S.faults result.1) (S.flagged sink) (S.flagged result.1) result.0.end }
    ensures flag { KeepsFlag (S.flagged sink) (S.flagged result.1) result.0.end }
    ensures reads { ReadsSome (Some (wanted_of request.now)) (F.reads files.old) (F.reads files.new) }
    ensures status { result.0.status ≡ status_of result.0.end }
{
    match prepare(alloc, request, files) {
        Ok(accepted) => perform(alloc, request.options, &accepted, sink),
        Err(end) => refuse(alloc, request.names.as_slice(), end, sink),
    }
}

/// Runs a session.
fn run_session<F: Files, S: Sink>(
    alloc: Global,
    words: &[String],
    files: &mut F,
    sink: S,
) -> (Ending, S)
    ensures cause { HasCause (options_in (map string_bytes words.now)) (F.reads files.old) (F.reads files.new) (F.faults files.old) (F.faults files.new) result.0.end }
    ensures run { Leaves (options_in (map string_bytes words.now)) (F.reads files.old) (F.reads files.new) result.0.journal.entries result.0.tables result.0.end }
    ensures written { IsWritten (options_in (map string_bytes words.now)) result.0.journal.entries (S.written sink) (S.written result.1) (S.faults sink) (S.faults result.1) (S.flagged sink) (S.flagged result.1) result.0.end }
    ensures flag { KeepsFlag (S.flagged sink) (S.flagged result.1) result.0.end }
    ensures reads { ReadsSome (options_in (map string_bytes words.now)) (F.reads files.old) (F.reads files.new) }
    ensures status { result.0.status ≡ status_of result.0.end }
{
    let Ok(found) = read_options(alloc, words) else {
        return refuse(alloc, &[], End::NoMemory, sink);
    };
    match found {
        Some(request) => run_request(alloc, &request, files, sink),
        None => refuse(alloc, &[], End::Words, sink),
    }
}

/// Runs a session to its end.
///
/// The words are options, a script's name and the names of one FILE or more, as `edb_options` reads them (`Words`,
/// status 2, if they aren't). The script is read first and then each FILE in order, each up to 1,000,001 bytes (`FileFault`,
/// status 3, with the first whose read fails). Each FILE is a module of the small language (`ModuleRefused`, status 4, with
/// the first that isn't, and its first fault); the script's lines are blank or give the commands of docs/COMMANDS.md, with one `start` among them
/// (`ScriptRefused`, status 5). Then the console's commands are answered in order and the process that they start is
/// run, in slices of at most as many moves as `--slice` says, until all are answered and no process can go on (`Done`,
/// status 0) or the journal's weight reaches what `--moves` says (`Limit`, status 6). Then the transcript is
/// written, one write for each entry that has lines; or, with `--journal`, the journal's text: its first line, and then one
/// write for each entry. After a write that fails no more is written (`WriteFault`, status 7). `NoMemory`, status 8, comes
/// if it is out of memory. A refusal writes its one line, and a fault of that write changes nothing. The sink is handed
/// back. docs/DEFINITIONS.md says where each of these words is defined.
pub fn session<F: Files, S: Sink + Drop>(
    alloc: Global,
    words: &[String],
    files: &mut F,
    sink: S,
) -> (Ending, S)
    // Why the session ended so.
    ensures cause { HasCause (options_in (map string_bytes words.now)) (F.reads files.old) (F.reads files.new) (F.faults files.old) (F.faults files.new) result.0.end }

    // The journal is legal: it answers the console's commands once and in order, each with the reply of a
    // server of one thread, and each process stopped exactly where what it had last taken in required.
    // Struck of the debugger's entries it is a plain run of the modules that were read; the tables are those
    // that this run leaves. edb_rules' laws say what follows.
    ensures run { Leaves (options_in (map string_bytes words.now)) (F.reads files.old) (F.reads files.new) result.0.journal.entries result.0.tables result.0.end }

    // The bytes written are the transcript of the journal or, with `--journal`, its text; a part of that after a
    // fault; or the refusal's line.
    ensures written { IsWritten (options_in (map string_bytes words.now)) result.0.journal.entries (S.written sink) (S.written result.1) (S.faults sink) (S.faults result.1) (S.flagged sink) (S.flagged result.1) result.0.end }
    ensures flag { KeepsFlag (S.flagged sink) (S.flagged result.1) result.0.end }
    ensures reads { ReadsSome (options_in (map string_bytes words.now)) (F.reads files.old) (F.reads files.new) }
    ensures status { result.0.status ≡ status_of result.0.end }

    // Each end but those of faults and of no memory comes wherever its cause holds, unless it is out of memory.
    ensures exact_words { WordsExactly (options_in (map string_bytes words.now)) result.0.end }
    ensures exact_module { ModuleExactly (options_in (map string_bytes words.now)) (F.reads files.old) (F.reads files.new) result.0.end }
    ensures exact_script { ScriptExactly (options_in (map string_bytes words.now)) (F.reads files.old) (F.reads files.new) result.0.end }
    ensures exact_done { DoneExactly (options_in (map string_bytes words.now)) (F.reads files.old) (F.reads files.new) result.0.journal.entries (S.flagged sink) (S.flagged result.1) result.0.end }
    ensures exact_limit { LimitExactly (options_in (map string_bytes words.now)) (F.reads files.old) (F.reads files.new) result.0.journal.entries (S.flagged sink) (S.flagged result.1) result.0.end }

    // Right words, no fault, accepted modules and an accepted script lead to Done or Limit.
    ensures complete { IsComplete (options_in (map string_bytes words.now)) (F.reads files.old) (F.reads files.new) (F.faults files.old) (F.faults files.new) (S.faults sink) (S.faults result.1) result.0.end }
{
    one_module();
    one_verdict_a_text();
    one_listing();
    run_session(alloc, words, files, sink)
}
