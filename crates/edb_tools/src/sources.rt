//! What is read, and what is to be written of it.

ghost use Rattle.std.specs.Prelude.{◌≡◌, ◌<◌, ◌≤◌, ◌^◌, [], map, length, Some, IfOk, IfErr, OnOk, MatchResult};
ghost use Rattle.edb_verdict.specs.Verdicts.{HasFault};
ghost use Rattle.edb_files.specs.Asking.{asked_of};
ghost use Rattle.edb_tools.specs.Views.{seen, IsAsked};
ghost use Rattle.edb_tools.specs.Verdicts.{AreAccepted};
ghost use Rattle.edb_tools.specs.Ends.{HasCause, HasLayout, HasReads, IsEarly, IsOutput, IsVerdict, Prints, generated_text, joined};

use crate::ToolEnd;
use crate::lines::ok_texts;
use crate::words::{AskedFor, Tool};
use edb_files::{AskedFile, ReadsFault, read_in_order};
use edb_gen::generate;
use edb_io::Files;
use edb_lang::Bytes;
use edb_print::module_text;
use edb_verdict::{ModuleFault, verdict};
use std::alloc::{AllocError, Global};

/// Checks each text, in order. `ModuleRefused` comes at the first that has a fault, counted from 0, and `NoMemory`
/// if it is out of memory.
fn check_all(alloc: Global, texts: &[Bytes]) -> Result<(), ToolEnd>
    requires { length texts.now < 2 ^ 32 }
    ensures ok { OnOk result (AreAccepted texts.now) }
    ensures err { IfErr result (λ end. IsVerdict texts.now end) }
{
    for (file, text) in texts.iter().enumerate() {
        match verdict(alloc, text.as_slice()) {
            Ok(Ok(_checked)) => {}
            Ok(Err(fault)) => {
                return Err(ToolEnd::ModuleRefused {
                    file: file as u32,
                    fault,
                });
            }
            Err(_) => return Err(ToolEnd::NoMemory),
        }
    }
    Ok(())
}

/// The text of the layout of a text's module, or the text's fault; `Err` comes only out of memory.
fn lay_out(alloc: Global, text: &[u8]) -> Result<Result<Bytes, ModuleFault>, AllocError>
    ensures { IfOk result (λ r. MatchResult r (λ out. HasLayout text.now out) (λ fault. HasFault text.now fault)) }
{
    match verdict(alloc, text)? {
        Ok(checked) => {
            let out = module_text(alloc, checked.module())?;
            Ok(Ok(out))
        }
        Err(fault) => Ok(Err(fault)),
    }
}

/// The lines of files, in pieces, if their texts are all accepted; or how the tool ends.
fn lines_of(alloc: Global, files: &[AskedFile<'_>], texts: &[Bytes]) -> Result<Vec<Bytes>, ToolEnd>
    requires { length texts.now < 2 ^ 32 }
    ensures accepted { OnOk result (AreAccepted texts.now) }
    ensures prints { IfOk result (λ lines. Prints Tool.Check (map asked_of files.now) texts.now (joined lines.items)) }
    ensures err { IfErr result (λ end. IsVerdict texts.now end) }
{
    match check_all(alloc, texts) {
        Ok(()) => match ok_texts(alloc, files) {
            Ok(lines) => Ok(lines),
            Err(_) => Err(ToolEnd::NoMemory),
        },
        Err(end) => Err(end),
    }
}

/// The layout of the one text's module, in one piece, if the text is accepted; or how the tool ends.
fn layout_of(alloc: Global, texts: &[Bytes]) -> Result<Vec<Bytes>, ToolEnd>
    requires { length texts.now ≡ 1 }
    ensures accepted { OnOk result (AreAccepted texts.now) }
    ensures prints { IfOk result (λ pieces. Prints Tool.Format [] texts.now (joined pieces.items)) }
    ensures err { IfErr result (λ end. IsVerdict texts.now end) }
{
    match lay_out(alloc, texts[0].as_slice()) {
        Ok(Ok(out)) => {
            let mut pieces = Vec::new(alloc);
            match pieces.push(out) {
                Ok(()) => Ok(pieces),
                Err(_) => Err(ToolEnd::NoMemory),
            }
        }
        Ok(Err(fault)) => Err(ToolEnd::ModuleRefused { file: 0, fault }),
        Err(_) => Err(ToolEnd::NoMemory),
    }
}

/// The module and the script of a generated run with so many workers, one text. `Err` comes only out of memory.
fn generated(alloc: Global, workers: u32) -> Result<Bytes, AllocError>
    requires some { 1 ≤ workers }
    requires few { workers ≤ 200 }
    ensures { IfOk result (λ text. text ≡ generated_text workers) }
{
    let made = generate(alloc, workers)?;
    let mut text = made.source;
    text.extend(b"%% script\n")?;
    text.extend(made.script.as_slice())?;
    Ok(text)
}

/// The generated run with so many workers, in one piece; `NoMemory` comes out of memory.
fn generated_pieces(alloc: Global, workers: u32, texts: &[Bytes]) -> Result<Vec<Bytes>, ToolEnd>
    requires some { 1 ≤ workers }
    requires few { workers ≤ 200 }
    requires none { length texts.now ≡ 0 }
    ensures accepted { OnOk result (AreAccepted texts.now) }
    ensures prints { IfOk result (λ pieces. Prints (Tool.Generate workers) [] texts.now (joined pieces.items)) }
    ensures err { IfErr result (λ end. IsVerdict texts.now end) }
{
    match generated(alloc, workers) {
        Ok(text) => {
            let mut pieces = Vec::new(alloc);
            match pieces.push(text) {
                Ok(()) => Ok(pieces),
                Err(_) => Err(ToolEnd::NoMemory),
            }
        }
        Err(_) => Err(ToolEnd::NoMemory),
    }
}

/// What a command writes of the texts of its files, in pieces; or how the tool ends if a text has a fault or it is out of
/// memory.
fn pieces_of(alloc: Global, asked: &AskedFor<'_>, texts: &[Bytes]) -> Result<Vec<Bytes>, ToolEnd>
    requires asked { IsAsked asked.now }
    requires all { length texts.now ≡ length asked.now.files.items }
    ensures accepted { OnOk result (AreAccepted texts.now) }
    ensures prints { IfOk result (λ pieces. Prints (seen asked.now).command (seen asked.now).files texts.now (joined pieces.items)) }
    ensures err { IfErr result (λ end. IsVerdict texts.now end) }
{
    match asked.command {
        Tool::Check => lines_of(alloc, asked.files.as_slice(), texts),
        Tool::Format => layout_of(alloc, texts),
        Tool::Generate { workers } => generated_pieces(alloc, workers, texts),
    }
}

/// Reads the files that are asked for, in order, and makes what the command writes of them, in pieces; or tells how the
/// tool ends if a read fails, a text has a fault or it is out of memory.
pub(crate) fn prepare<F: Files>(
    alloc: Global,
    asked: &AskedFor<'_>,
    files: &mut F,
) -> Result<Vec<Bytes>, ToolEnd>
    requires { IsAsked asked.now }
    ensures ok { IfOk result (λ pieces. IsOutput (seen asked.now) (F.reads files.old) (F.reads files.new) (joined pieces.items)) }
    ensures cause { IfErr result (λ end. HasCause (Some (seen asked.now)) (F.reads files.old) (F.reads files.new) (F.faults files.old) (F.faults files.new) end) }
    ensures reads { IfErr result (λ end. HasReads (Some (seen asked.now)) (F.reads files.old) (F.reads files.new) end) }
    ensures early { IfErr result IsEarly }
{
    let texts = match read_in_order(alloc, asked.files.as_slice(), files) {
        Ok(texts) => texts,
        Err(ReadsFault::Failed { file }) => return Err(ToolEnd::FileFault { file }),
        Err(ReadsFault::NoMemory) => return Err(ToolEnd::NoMemory),
    };
    match pieces_of(alloc, asked, texts.as_slice()) {
        Ok(pieces) => Ok(pieces),
        Err(end) => Err(end),
    }
}
