//! The commands of consoles, after the `int` and `i` modules of OTP's Debugger.

ghost use Rattle.std.specs.Prelude.{◌≡◌, IfOk};

use edb_lang::{Action, Name, Rows, Term};
use std::alloc::{AllocError, Global};

/// What a process is doing, as the debugger shows it.
#[derive(Clone, Copy, PartialEq, Eq, Debug)]
pub enum ProcStatus {
    /// It lives and isn't interpreted.
    Idle,
    /// It is interpreted and goes on.
    Running,
    /// It is interpreted and waits for a message.
    Waiting,
    /// It is stopped.
    Break,
    /// It has ended.
    Exit,
}

/// When a console is attached by itself: at a process's first interpreted expression, at each stop, or
/// at its end.
#[derive(Clone, Copy, PartialEq, Eq, Debug)]
pub enum AutoFlag {
    Init,
    Break,
    Exit,
}

/// Which calls of a stack are saved, in the words of the command; `All` and `True` mean the same.
#[derive(Clone, Copy, PartialEq, Eq, Debug)]
pub enum TraceWord {
    All,
    True,
    NoTail,
    False,
}

/// A command, with the number of the process that it is about. Lines and arities are those of the
/// source, versions count the files of one module from 1.
#[derive(Drop)]
pub enum Call {
    /// Starts a process with the call of `module:name` with the elements of `args`.
    Start {
        module: Name,
        name: Name,
        args: Term,
    },
    /// Makes this version of the module current.
    Load {
        module: Name,
        version: u32,
    },
    /// Interprets a module.
    Ii {
        module: Name,
    },
    /// Interprets a module no longer.
    Iq {
        module: Name,
    },
    /// Lists the interpreted modules.
    Il,
    /// Sets a breakpoint at a line.
    Ib {
        module: Name,
        line: u32,
    },
    /// Sets a breakpoint at each clause of a function.
    IbIn {
        module: Name,
        name: Name,
        arity: u32,
    },
    /// Deletes a breakpoint.
    Ir {
        module: Name,
        line: u32,
    },
    /// Deletes the breakpoints of a module.
    IrModule {
        module: Name,
    },
    /// Deletes all breakpoints.
    IrAll,
    /// Deletes the breakpoints of a function's clauses.
    IrIn {
        module: Name,
        name: Name,
        arity: u32,
    },
    /// Disables a breakpoint.
    Ibd {
        module: Name,
        line: u32,
    },
    /// Enables a breakpoint.
    Ibe {
        module: Name,
        line: u32,
    },
    /// Says what becomes of a breakpoint after a stop.
    Iba {
        module: Name,
        line: u32,
        action: Action,
    },
    /// Gives a breakpoint the condition that this function of that module holds.
    Ibc {
        module: Name,
        line: u32,
        cond: (Name, Name),
    },
    /// Lists all breakpoints.
    Ipb,
    /// Lists the breakpoints of a module.
    IpbModule {
        module: Name,
    },
    /// Lists the interpreted processes.
    Ip,
    /// Forgets the processes that have ended.
    Ic,
    /// Says when the console is attached by itself; no flag means never.
    Iaa {
        flags: Rows<AutoFlag>,
    },
    /// Says which calls of a stack are saved.
    Ist {
        word: TraceWord,
    },
    /// Attaches the console to a process.
    Ia {
        pid: u32,
    },
    /// Detaches the console from a process.
    Detach {
        pid: u32,
    },
    /// Lets a stopped process go on to the next expression.
    Step {
        pid: u32,
    },
    /// Lets it go on to the next expression of this call or of one round it.
    Next {
        pid: u32,
    },
    /// Lets it go on until this call has returned.
    Finish {
        pid: u32,
    },
    /// Stops a process at its next expression.
    Halt {
        pid: u32,
    },
    /// Lets a stopped process go on.
    Continue {
        pid: u32,
    },
    /// Leaves out the expression at which a process stopped.
    Skip {
        pid: u32,
    },
    /// Ends a process.
    Kill {
        pid: u32,
    },
    /// Lets the time of a process that waits for a message run out.
    Timeout {
        pid: u32,
    },
    /// Lists the variables of a stopped process's innermost call.
    Bindings {
        pid: u32,
    },
    /// Lists the calls of a stopped process.
    Frames {
        pid: u32,
    },
    /// Waits until a process has this status.
    Await {
        pid: u32,
        status: ProcStatus,
    },
    /// Waits until some process has this status.
    AwaitAny {
        status: ProcStatus,
    },
    /// Ends the session.
    Quit,
}

impl Call {
    /// An equal command; refused only for want of memory.
    pub fn copy(&self, alloc: Global) -> Result<Call, AllocError>
        ensures { IfOk result (λ c. c ≡ self.now) }
    {
        match self {
            Call::Start { module, name, args } => Ok(Call::Start {
                module: module.copy(alloc)?,
                name: name.copy(alloc)?,
                args: args.copy(alloc)?,
            }),
            Call::Load { module, version } => Ok(Call::Load {
                module: module.copy(alloc)?,
                version: *version,
            }),
            Call::Ii { module } => Ok(Call::Ii {
                module: module.copy(alloc)?,
            }),
            Call::Iq { module } => Ok(Call::Iq {
                module: module.copy(alloc)?,
            }),
            Call::Il => Ok(Call::Il),
            Call::Ib { module, line } => Ok(Call::Ib {
                module: module.copy(alloc)?,
                line: *line,
            }),
            Call::IbIn {
                module,
                name,
                arity,
            } => Ok(Call::IbIn {
                module: module.copy(alloc)?,
                name: name.copy(alloc)?,
                arity: *arity,
            }),
            Call::Ir { module, line } => Ok(Call::Ir {
                module: module.copy(alloc)?,
                line: *line,
            }),
            Call::IrModule { module } => Ok(Call::IrModule {
                module: module.copy(alloc)?,
            }),
            Call::IrAll => Ok(Call::IrAll),
            Call::IrIn {
                module,
                name,
                arity,
            } => Ok(Call::IrIn {
                module: module.copy(alloc)?,
                name: name.copy(alloc)?,
                arity: *arity,
            }),
            Call::Ibd { module, line } => Ok(Call::Ibd {
                module: module.copy(alloc)?,
                line: *line,
            }),
            Call::Ibe { module, line } => Ok(Call::Ibe {
                module: module.copy(alloc)?,
                line: *line,
            }),
            Call::Iba {
                module,
                line,
                action,
            } => Ok(Call::Iba {
                module: module.copy(alloc)?,
                line: *line,
                action: *action,
            }),
            Call::Ibc { module, line, cond } => Ok(Call::Ibc {
                module: module.copy(alloc)?,
                line: *line,
                cond: (cond.0.copy(alloc)?, cond.1.copy(alloc)?),
            }),
            Call::Ipb => Ok(Call::Ipb),
            Call::IpbModule { module } => Ok(Call::IpbModule {
                module: module.copy(alloc)?,
            }),
            Call::Ip => Ok(Call::Ip),
            Call::Ic => Ok(Call::Ic),
            Call::Iaa { flags } => Ok(Call::Iaa {
                flags: copy_flags(alloc, flags)?,
            }),
            Call::Ist { word } => Ok(Call::Ist { word: *word }),
            Call::Ia { pid } => Ok(Call::Ia { pid: *pid }),
            Call::Detach { pid } => Ok(Call::Detach { pid: *pid }),
            Call::Step { pid } => Ok(Call::Step { pid: *pid }),
            Call::Next { pid } => Ok(Call::Next { pid: *pid }),
            Call::Finish { pid } => Ok(Call::Finish { pid: *pid }),
            Call::Halt { pid } => Ok(Call::Halt { pid: *pid }),
            Call::Continue { pid } => Ok(Call::Continue { pid: *pid }),
            Call::Skip { pid } => Ok(Call::Skip { pid: *pid }),
            Call::Kill { pid } => Ok(Call::Kill { pid: *pid }),
            Call::Timeout { pid } => Ok(Call::Timeout { pid: *pid }),
            Call::Bindings { pid } => Ok(Call::Bindings { pid: *pid }),
            Call::Frames { pid } => Ok(Call::Frames { pid: *pid }),
            Call::Await { pid, status } => Ok(Call::Await {
                pid: *pid,
                status: *status,
            }),
            Call::AwaitAny { status } => Ok(Call::AwaitAny { status: *status }),
            Call::Quit => Ok(Call::Quit),
        }
    }
}

fn copy_flags(alloc: Global, flags: &Rows<AutoFlag>) -> Result<Rows<AutoFlag>, AllocError>
    ensures { IfOk result (λ copies. copies ≡ flags.now) }
{
    let copies = Vec::from_slice(alloc, flags.as_slice())?;
    Ok(Rows::from_vec(copies))
}

/// How a command of a script names its process: not at all; by number; the one that this console's own
/// start of that number made, counted from 1; by registered name; or the one of the console's last
/// await that was answered by a status.
#[derive(Drop)]
pub enum Word {
    Absent,
    Number(u32),
    Own(u32),
    Named(Name),
    Last,
}

impl Word {
    /// An equal word; refused only for want of memory.
    pub fn copy(&self, alloc: Global) -> Result<Word, AllocError>
        ensures { IfOk result (λ w. w ≡ self.now) }
    {
        match self {
            Word::Absent => Ok(Word::Absent),
            Word::Number(pid) => Ok(Word::Number(*pid)),
            Word::Own(place) => Ok(Word::Own(*place)),
            Word::Named(name) => Ok(Word::Named(name.copy(alloc)?)),
            Word::Last => Ok(Word::Last),
        }
    }
}

/// A command of a script. Until its word is found to be a process, the process of `call` is 0.
#[derive(Drop)]
pub struct Command {
    pub call: Call,
    pub word: Word,
}

impl Command {
    /// An equal command; refused only for want of memory.
    pub fn copy(&self, alloc: Global) -> Result<Command, AllocError>
        ensures { IfOk result (λ c. c ≡ self.now) }
    {
        let call = self.call.copy(alloc)?;
        let word = self.word.copy(alloc)?;
        Ok(Command { call, word })
    }
}
