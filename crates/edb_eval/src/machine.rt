//! The machine that makes the moves of one process.

ghost use Rattle.std.specs.Prelude.{◌≡◌, ◌<◌, ◌≤◌, ◌+◌, ◌^◌, ◌∷◌, [], true, false, IfOk, OnOk, OnErr, MatchOption};
ghost use Rattle.std.specs.List.{list_any};
ghost use Rattle.std.specs.Option.{option_map};
ghost use Rattle.edb_lang.specs.TermText.{same_name};
ghost use Rattle.edb_lang.specs.declared.act.ActKind.TheVariants as act;
ghost use Rattle.edb_lang.specs.Terms as term;
ghost use Rattle.edb_model.specs.Running.{opening_call, remote_call};
ghost use Rattle.edb_model.specs.Lookup.{first_versions};
ghost use Rattle.edb_model.specs.Move.{next, redex, is_move, is_display, moved, answered, acts};
ghost use Rattle.edb_model.specs.Acts.{exit_reason};
ghost use Rattle.edb_model.specs.Innermost.{innermost};
ghost use Rattle.edb_eval.specs.BodyInfo.{body_info};
ghost use Rattle.edb_eval.specs.Stands.{state_tree, stands_for, settled_state};
ghost use Rattle.edb_eval.specs.Glances.{kind_of, Displays};
ghost use Rattle.edb_eval.specs.Levels.{highest};

use crate::body::Body;
use crate::calls::{Called, Entry, Site, call};
use crate::focus::{Focus, Redex};
use crate::frames::Frames;
use crate::glance::{Kind, names_display};
use crate::reasons::{error_exit, failure, throw_exit};
use crate::running::{Outcome, Running};
use edb_lang::{ActKind, Class, Name, Rows, Term};
use edb_model::Code;
use std::alloc::{AllocError, Global};

/// The machine of a process: contracts see the running expression that it stands for.
#[derive(Drop)]
pub struct Machine<'a> {
    state: State<'a>,
}

// The call by which a process begins, a call that is being evaluated, a value, or an exception.
#[derive(Drop)]
enum State<'a> {
    Opening {
        module: Name,
        name: Name,
        args: Rows<Term>,
    },
    Running(Running<'a>),
    Value(Term),
    Raised {
        class: Class,
        reason: Term,
    },
}

impl<'a> Machine<'a> {
    /// The machine of a process that begins with this call; takes no memory.
    pub fn open(module: Name, name: Name, args: Vec<Term>) -> Machine<'a>
        ensures call { stands_for result ≡ opening_call «module» name args.items }
        ensures levels { highest (stands_for result) ≡ 0 }
    {
        Machine {
            state: State::Opening {
                module,
                name,
                args: Rows::from_vec(args),
            },
        }
    }

    /// What is next; takes no memory.
    pub fn next_kind(&self) -> Kind<'_>
        ensures { kind_of result ≡ next (stands_for self.now) }
    {
        match &self.state {
            State::Opening { module, name, args } => match shown(module, name, args.as_slice()) {
                Some(_) => Kind::Act(ActKind::Print),
                None => Kind::Pure,
            },
            State::Running(running) => running.kind(),
            State::Value(_) => Kind::Act(ActKind::End),
            State::Raised { .. } => Kind::Act(ActKind::End),
        }
    }

    /// Makes the pure move that is next, with version 1 of each module as the current one; where memory
    /// is refused the expression stays as it was.
    pub fn step(&mut self, alloc: Global, code: &'a Code) -> Result<(), AllocError>
        requires move_ { is_move (next (stands_for self.old)) ≡ true }
        requires room { highest (stands_for self.old) < 2 ^ 63 }
        ensures ok { OnOk result (stands_for self.new ≡ moved code.now (first_versions code.now) (stands_for self.old)) }
        ensures err { OnErr result (stands_for self.new ≡ stands_for self.old) }
        ensures levels { highest (stands_for self.new) ≤ highest (stands_for self.old) + 1 }
    {
        match &mut self.state {
            State::Opening { module, name, args } => {
                let state = opened(alloc, code, module, name, args.as_slice())?;
                self.turn_into(state);
                Ok(())
            }
            State::Running(running) => {
                let outcome = running.advance(alloc, code)?;
                self.settle(outcome);
                Ok(())
            }
            State::Value(_) => Ok(()),
            State::Raised { .. } => Ok(()),
        }
    }

    /// A copy of the operand of the display that is next; refused only for want of memory.
    pub fn operand(&self, alloc: Global) -> Result<Term, AllocError>
        requires { next (stands_for self.now) ≡ acts act.Print }
        ensures { IfOk result (λ v. Displays (redex (stands_for self.now)).1 v) }
    {
        match &self.state {
            State::Opening { module, name, args } => match shown(module, name, args.as_slice()) {
                Some(value) => value.copy(alloc),
                None => unreachable!(),
            },
            State::Running(running) => running.operand(alloc),
            State::Value(_) => unreachable!(),
            State::Raised { .. } => unreachable!(),
        }
    }

    /// Puts the answer of the display that is next in its place; where memory is refused the expression
    /// stays as it was.
    pub fn answer(&mut self, alloc: Global, value: Term) -> Result<(), AllocError>
        requires { next (stands_for self.old) ≡ acts act.Print }
        ensures ok { OnOk result (stands_for self.new ≡ answered value (stands_for self.old)) }
        ensures err { OnErr result (stands_for self.new ≡ stands_for self.old) }
        ensures levels { highest (stands_for self.new) ≤ highest (stands_for self.old) }
    {
        match &mut self.state {
            State::Running(running) => {
                running.reach(alloc)?;
                let outcome = running.give(value);
                self.settle(outcome);
                Ok(())
            }
            _ => {
                self.turn_into(State::Value(value));
                Ok(())
            }
        }
    }

    /// The reason with which the process ends; refused only for want of memory.
    pub fn reason(&self, alloc: Global) -> Result<Term, AllocError>
        requires { next (stands_for self.now) ≡ acts act.End }
        ensures { IfOk result (λ r. r ≡ exit_reason (stands_for self.now)) }
    {
        match &self.state {
            State::Opening { .. } => failure(alloc, "normal"),
            State::Running(_) => failure(alloc, "normal"),
            State::Value(_) => failure(alloc, "normal"),
            State::Raised { class, reason } => match class {
                Class::Error => error_exit(alloc, reason),
                Class::Exit => reason.copy(alloc),
                Class::Throw => throw_exit(alloc, reason),
            },
        }
    }

    /// The innermost Body, where there is one; takes no memory.
    pub fn innermost(&self) -> Option<Body<'_>>
        ensures { option_map body_info result ≡ innermost (stands_for self.now) }
    {
        match &self.state {
            State::Opening { .. } => None,
            State::Running(running) => Some(running.innermost()),
            State::Value(_) => None,
            State::Raised { .. } => None,
        }
    }

    /// Whether some Body round what is next is of one of these modules; takes no memory.
    pub fn is_inside(&self, modules: &[Name]) -> bool
        ensures { result ≡ list_any (λ b. list_any (same_name b.0) modules.now) (redex (stands_for self.now)).0.bodies }
    {
        match &self.state {
            State::Opening { .. } => false,
            State::Running(running) => running.is_inside(modules),
            State::Value(_) => false,
            State::Raised { .. } => false,
        }
    }

    // Takes over what a move came to.
    fn settle(&mut self, outcome: Outcome)
        ensures { self.new ≡ record { state = settled_state self.old.state outcome } }
    {
        match outcome {
            Outcome::Stays => {}
            Outcome::Ends(value) => self.turn_into(State::Value(value)),
            Outcome::Raises { class, reason } => self.turn_into(State::Raised { class, reason }),
        }
    }

    fn turn_into(&mut self, state: State<'a>)
        ensures { self.new ≡ record { state = state.entry } }
    {
        self.state = state;
    }
}

// What becomes of the call by which a process begins.
fn opened<'a>(
    alloc: Global,
    code: &'a Code,
    module: &Name,
    name: &Name,
    args: &[Term],
) -> Result<State<'a>, AllocError>
    ensures { IfOk result (λ s. state_tree s ≡ moved code.now (first_versions code.now) (opening_call «module».now name.now args.now)) }
{
    let site = Site {
        module,
        version: 1,
        inside: false,
        level: 0,
    };
    match call(alloc, code, site, name, args)? {
        Called::Enters(entry) => {
            let Entry { here, first, rest } = entry;
            Ok(State::Running(Running {
                frames: Frames::new(alloc),
                here,
                focus: Focus::Redex(Redex::Begin { first, rest }),
            }))
        }
        Called::Fails(reason) => Ok(State::Raised {
            class: Class::Error,
            reason,
        }),
    }
}

// The operand of an opening call that is a display.
fn shown<'m>(module: &Name, name: &Name, args: &'m [Term]) -> Option<&'m Term>
    ensures { MatchOption result (is_display remote_call (term.atom «module».now ∷ (term.atom name.now ∷ args.now)) ≡ false)
        (λ v. (args.now ≡ v.now ∷ []) × (is_display remote_call (term.atom «module».now ∷ (term.atom name.now ∷ args.now)) ≡ true)) }
{
    if !names_display(module, name) {
        return None;
    }
    match args.split_first() {
        None => None,
        Some((value, others)) => match others.first() {
            None => Some(value),
            Some(_) => None,
        },
    }
}
