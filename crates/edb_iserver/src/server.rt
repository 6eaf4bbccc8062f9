//! The server: the table of breakpoints, the interpreted modules, which console is attached to which process, and what was
//! seen of each process.

ghost use Rattle.std.specs.Prelude.{◌≡◌, IfOk, None, is_some};
ghost use Rattle.std.specs.Option.{option_copied};
ghost use Rattle.edb_model.specs.Procs.{numbered};
ghost use Rattle.edb_rules.specs.Server as rules;
ghost use Rattle.edb_rules.specs.Server.{first_server, console_of, is_console_of, seen_at};

use crate::seen::Seen;
use edb_breaks::Breaks;
use edb_event::AutoFlag;
use edb_lang::Name;
use edb_model::Code;
use std::alloc::{AllocError, Global};
use std::marker::Model;

/// The interpreter server of modules. Contracts see all that it knows. No command sets a flag or makes a version current yet,
/// and none says which frames are shown.
#[derive(Drop)]
pub struct Server<'a> {
    pub(crate) alloc: Global,
    pub(crate) code: &'a Code,
    pub(crate) table: Breaks,
    pub(crate) interpreted: Vec<Name>,
    pub(crate) attached: Vec<(u32, u32)>,
    pub(crate) seen: Vec<Option<Seen>>,
    pub(crate) made: usize,
}

impl<'a> Model for Server<'a> {
    ghost use Rattle.std.specs.Prelude.{[]};
    ghost use Rattle.std.specs.Coded.{codes};
    ghost use Rattle.edb_lang.specs.TermCodes.{coded_pairs};
    ghost use Rattle.edb_lang.specs.SyntaxCodes.{coded_module};
    ghost use Rattle.edb_lang.specs.declared.small.TraceFlag.TheVariants as trace;
    ghost use Rattle.edb_model.specs.Lookup.{first_versions};
    ghost use Rattle.edb_rules.specs.Server as rules;

    ghost Value = { rules.Server };

    ghost coded = { Prim.hlevel (codes, coded_pairs, coded_module) };

    ghost view = { λ s. record {
      code = s.code.now;
      current = first_versions s.code.now;
      table = s.table;
      interpreted = s.interpreted.items;
      flags = [];
      flag_console = 1;
      trace = trace.NoTail;
      attached = s.attached.items;
      seen = s.seen.items;
      made = s.made;
    } };
}

/// Equal names; refused only for want of memory.
fn copy_names(alloc: Global, names: &[Name]) -> Result<Vec<Name>, AllocError>
    ensures { IfOk result (λ copies. copies.items ≡ names.now) }
{
    let mut copies = Vec::new(alloc);
    for name in names {
        copies.push(name.copy(alloc)?)?;
    }
    Ok(copies)
}

/// Whether a module is among these.
pub fn is_among(module: &Name, names: &[Name]) -> bool
    ensures { result ≡ rules.is_among «module».now names.now }
{
    names.iter().any(|name| module.same(name))
}

/// What was seen of a process, if it was made.
pub(crate) fn seen_of(seen: &[Option<Seen>], pid: u32) -> Option<&Seen>
    ensures { option_copied result ≡ numbered None seen.now pid }
{
    if pid == 0 {
        return None;
    }
    match seen.get((pid - 1) as usize) {
        Some(Some(process)) => Some(process),
        Some(None) => None,
        None => None,
    }
}

impl<'a> Server<'a> {
    /// The server of these modules: no breakpoint, no interpreted module, no console attached, no process. It takes no memory.
    pub fn new(alloc: Global, code: &'a Code) -> Server<'a>
        ensures { result ≡ first_server code.now }
    {
        Server {
            alloc,
            code,
            table: Breaks::new(alloc),
            interpreted: Vec::new(alloc),
            attached: Vec::new(alloc),
            seen: Vec::new(alloc),
            made: 0,
        }
    }

    /// A copy of the table of breakpoints; refused only for want of memory.
    pub fn copy_table(&self) -> Result<Breaks, AllocError>
        ensures { IfOk result (λ table. table ≡ self.now.table) }
    {
        self.table.copy()
    }

    /// A copy of the interpreted modules, in the order in which they came; refused only for want of memory.
    pub fn copy_interpreted(&self) -> Result<Vec<Name>, AllocError>
        ensures { IfOk result (λ modules. modules.items ≡ self.now.interpreted) }
    {
        copy_names(self.alloc, &self.interpreted)
    }

    /// A copy of the flags by which a console is attached by itself. No command sets one yet, so it takes no memory.
    pub fn copy_flags(&self) -> Vec<AutoFlag>
        ensures { result.items ≡ self.now.flags }
    {
        Vec::new(self.alloc)
    }

    /// The console that is attached to a process.
    pub(crate) fn console_of(&self, pid: u32) -> Option<u32>
        ensures { result ≡ console_of pid self.now.attached }
    {
        for (process, console) in &self.attached {
            if *process == pid {
                return Some(*console);
            }
        }
        None
    }

    /// Whether this console is attached to a process.
    pub(crate) fn is_attached(&self, console: u32, pid: u32) -> bool
        ensures { result ≡ is_console_of console pid self.now.attached }
    {
        self.attached
            .iter()
            .any(|pair| pair.0 == pid && pair.1 == console)
    }
}
