//! A process as contracts see it: the running expression that its machine stands for.

ghost use Rattle.std.specs.Prelude.{◌≡◌, ◌<◌, ◌≤◌, ◌+◌, ◌^◌, true, IfOk, OnOk, OnErr};
ghost use Rattle.std.specs.List.{list_any};
ghost use Rattle.std.specs.Option.{option_map};
ghost use Rattle.edb_lang.specs.TermText.{same_name};
ghost use Rattle.edb_lang.specs.declared.act.ActKind.TheVariants as act;
ghost use Rattle.edb_model.specs.Running.{opening_call};
ghost use Rattle.edb_model.specs.Lookup.{first_versions};
ghost use Rattle.edb_model.specs.Move.{next, redex, is_move, moved, answered, acts};
ghost use Rattle.edb_model.specs.Acts.{exit_reason};
ghost use Rattle.edb_model.specs.Innermost.{innermost};
ghost use Rattle.edb_eval.specs.BodyInfo.{body_info};
ghost use Rattle.edb_eval.specs.Glances.{kind_of, Displays};
ghost use Rattle.edb_eval.specs.Levels.{highest};

use crate::body::Body;
use crate::glance::Kind;
use crate::machine::Machine;
use edb_lang::{Name, Term};
use edb_model::Code;
use std::alloc::{AllocError, Global};
use std::marker::Model;

/// A process. Contracts see its running expression.
#[derive(Drop)]
pub struct Process<'a> {
    machine: Machine<'a>,
}

impl<'a> Model for Process<'a> {
    ghost use Rattle.edb_model.specs.Running.{Run};
    ghost use Rattle.edb_model.specs.RunningCodes.{coded_run};

    ghost Value = { Run };

    ghost coded = { coded_run };

    ghost use Rattle.edb_eval.specs.Stands.{stands_for};

    ghost view = { λ p. stands_for p.machine };
}

impl<'a> Process<'a> {
    /// The process that begins with this call; takes no memory.
    pub fn open(module: Name, name: Name, args: Vec<Term>) -> Process<'a>
        ensures call { result ≡ opening_call «module» name args.items }
        ensures levels { highest result ≡ 0 }
    {
        Process {
            machine: Machine::open(module, name, args),
        }
    }

    /// What is next; takes no memory.
    pub fn next_kind(&self) -> Kind<'_>
        ensures { kind_of result ≡ next self.now }
    {
        self.machine.next_kind()
    }

    /// Makes the pure move that is next, with version 1 of each module as the current one; where memory
    /// is refused the expression stays as it was.
    pub fn step(&mut self, alloc: Global, code: &'a Code) -> Result<(), AllocError>
        requires move_ { is_move (next self.old) ≡ true }
        requires room { highest self.old < 2 ^ 63 }
        ensures ok { OnOk result (self.new ≡ moved code.now (first_versions code.now) self.old) }
        ensures err { OnErr result (self.new ≡ self.old) }
        ensures levels { highest self.new ≤ highest self.old + 1 }
    {
        self.machine.step(alloc, code)
    }

    /// A copy of the operand of the display that is next; refused only for want of memory.
    pub fn operand(&self, alloc: Global) -> Result<Term, AllocError>
        requires { next self.now ≡ acts act.Print }
        ensures { IfOk result (λ v. Displays (redex self.now).1 v) }
    {
        self.machine.operand(alloc)
    }

    /// Puts the answer of the display that is next in its place; where memory is refused the expression
    /// stays as it was.
    pub fn answer(&mut self, alloc: Global, value: Term) -> Result<(), AllocError>
        requires { next self.old ≡ acts act.Print }
        ensures ok { OnOk result (self.new ≡ answered value self.old) }
        ensures err { OnErr result (self.new ≡ self.old) }
        ensures levels { highest self.new ≤ highest self.old }
    {
        self.machine.answer(alloc, value)
    }

    /// The reason with which the process ends; refused only for want of memory.
    pub fn reason(&self, alloc: Global) -> Result<Term, AllocError>
        requires { next self.now ≡ acts act.End }
        ensures { IfOk result (λ r. r ≡ exit_reason self.now) }
    {
        self.machine.reason(alloc)
    }

    /// The innermost Body, where there is one; takes no memory.
    pub fn innermost(&self) -> Option<Body<'_>>
        ensures { option_map body_info result ≡ innermost self.now }
    {
        self.machine.innermost()
    }

    /// Whether some Body round what is next is of one of these modules: it looks at the innermost Body first,
    /// and ends at the first that is. Takes no memory.
    pub fn is_inside(&self, modules: &[Name]) -> bool
        ensures { result ≡ list_any (λ b. list_any (same_name b.0) modules.now) (redex self.now).0.bodies }
    {
        self.machine.is_inside(modules)
    }
}
