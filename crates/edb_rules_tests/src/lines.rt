//! Entries and their lines, which were written by hand.

use edb_event::{AutoFlag, Call, Cause, Entry, ProcStatus, Refusal, Reply};
use edb_lang::{ActKind, Action, Bytes, Name, Rows, Term};
use edb_report::{entry_text, render};
use std::alloc::{AllocError, Global};
use std::test::Fail;

fn name(alloc: Global, text: &str) -> Result<Name, AllocError> {
    Name::from_str(alloc, text)
}

fn bytes(alloc: Global, text: &str) -> Result<Bytes, AllocError> {
    Bytes::from_slice(alloc, text.as_bytes())
}

/// Whether an entry has this text.
fn tells(alloc: Global, entry: &Entry, text: &str) -> Result<bool, AllocError> {
    let lines = entry_text(alloc, entry)?;
    Ok(lines.as_slice() == text.as_bytes())
}

/// Whether a command of console 1 and its reply have this text.
fn answers(alloc: Global, call: Call, reply: Reply, text: &str) -> Result<bool, AllocError> {
    let served = Entry::Served {
        console: 1,
        call,
        reply,
    };
    tells(alloc, &served, text)
}

/// Whether the end of a breakpoint at line 7 of `shop` has this text.
fn triggers(alloc: Global, action: Action, applied: bool, text: &str) -> Result<bool, AllocError> {
    let trigger = Entry::Trigger {
        pid: 1,
        module: name(alloc, "shop")?,
        line: 7,
        serial: 4,
        action,
        applied,
    };
    tells(alloc, &trigger, text)
}

/// Whether an act of process 2 has this text.
fn acts(
    alloc: Global,
    kind: ActKind,
    value: &str,
    printed: &str,
    text: &str,
) -> Result<bool, AllocError> {
    let value = bytes(alloc, value)?;
    let bytes = bytes(alloc, printed)?;
    let act = Entry::Did {
        pid: 2,
        kind,
        value,
        bytes,
    };
    tells(alloc, &act, text)
}

/// Whether a signal to process 3 has this text.
fn signals(alloc: Global, ended: Option<Bytes>, text: &str) -> Result<bool, AllocError> {
    tells(alloc, &Entry::Signal { to: 3, ended }, text)
}

/// The list of the integer 97.
fn list(alloc: Global) -> Result<Term, AllocError> {
    match Term::cons(alloc, Term::int(97), Term::nil())? {
        Ok(list) => Ok(list),
        Err(_) => Ok(Term::nil()),
    }
}

/// Whether a start of `shop:main` with such a list has this text.
fn starts(alloc: Global, text: &str) -> Result<bool, AllocError> {
    let module = name(alloc, "shop")?;
    let name = name(alloc, "main")?;
    let args = list(alloc)?;
    let start = Entry::Start {
        console: 1,
        pid: 2,
        module,
        name,
        args,
    };
    tells(alloc, &start, text)
}

/// Such a start as a command.
fn start_command(alloc: Global) -> Result<Call, AllocError> {
    Ok(Call::Start {
        module: name(alloc, "shop")?,
        name: name(alloc, "main")?,
        args: list(alloc)?,
    })
}

/// Whether a stop at line 7 of `shop` has this text.
fn stops(alloc: Global, text: &str) -> Result<bool, AllocError> {
    let stop = Entry::Stop {
        pid: 1,
        module: name(alloc, "shop")?,
        line: 7,
        level: 2,
        by: Cause::Break(3),
    };
    tells(alloc, &stop, text)
}

/// Two rows of bindings.
fn two_rows(alloc: Global) -> Result<Reply, AllocError> {
    let mut rows = Rows::new(alloc);
    rows.push(bytes(alloc, "A = 2")?)?;
    rows.push(bytes(alloc, "B = 40")?)?;
    Ok(Reply::Rows(rows))
}

/// Two flags.
fn two_flags(alloc: Global) -> Result<Call, AllocError> {
    let mut flags = Rows::new(alloc);
    flags.push(AutoFlag::Break)?;
    flags.push(AutoFlag::Exit)?;
    Ok(Call::Iaa { flags })
}

#[test]
fn entries_have_their_lines(rt: HostRuntime) -> Result<(), Fail> {
    let alloc = rt.alloc();
    assert!(rt; starts(alloc, "-- 1 start <2> shop:main/1\n")?);
    assert!(rt; stops(alloc, "-- <1> stop shop:7 level 2\n")?);
    assert!(rt;
        triggers(
            alloc,
            Action::Delete,
            true,
            "-- <1> trigger shop:7 delete\n"
        )?
    );
    assert!(rt; triggers(alloc, Action::Enable, true, "")?);
    assert!(rt; triggers(alloc, Action::Disable, false, "")?);
    assert!(rt; acts(alloc, ActKind::Print, "true", "sums [10]", "sums [10]")?);
    assert!(rt;
        acts(
            alloc,
            ActKind::End,
            "{oops,[]}",
            "",
            "-- <2> exit {oops,[]}\n"
        )?
    );
    assert!(rt; acts(alloc, ActKind::Send, "ok", "", "")?);
    assert!(rt; signals(alloc, None, "")?);
    assert!(rt; signals(alloc, Some(bytes(alloc, "killed")?), "-- <3> exit killed\n")?);
    Ok(())
}

#[test]
fn commands_have_their_lines(rt: HostRuntime) -> Result<(), Fail> {
    let alloc = rt.alloc();
    let start = start_command(alloc)?;
    let full = Reply::Refused(Refusal::SystemLimit);
    assert!(rt;
        answers(
            alloc,
            start,
            full,
            "-- 1 start shop main [97]: system_limit\n"
        )?
    );
    let rows = two_rows(alloc)?;
    let bindings = Call::Bindings { pid: 1 };
    assert!(rt;
        answers(
            alloc,
            bindings,
            rows,
            "-- 1 bindings <1>: 2 rows\nA = 2\nB = 40\n"
        )?
    );
    let flags = two_flags(alloc)?;
    assert!(rt; answers(alloc, flags, Reply::Ok, "-- 1 iaa break exit: ok\n")?);
    let status = ProcStatus::Break;
    let stopped = Reply::Status { pid: 4, status };
    let any = Call::AwaitAny { status };
    assert!(rt; answers(alloc, any, stopped, "-- 1 await any break: <4> break\n")?);
    let module = name(alloc, "Shop")?;
    let quoted = Call::Ib { module, line: 7 };
    assert!(rt; answers(alloc, quoted, Reply::Ok, "-- 1 ib 'Shop' 7: ok\n")?);
    Ok(())
}

/// The transcript of three entries.
fn transcript(alloc: Global) -> Result<Bytes, AllocError> {
    let printed = bytes(alloc, "5")?;
    let value = bytes(alloc, "true")?;
    let entries = [
        Entry::Did {
            pid: 1,
            kind: ActKind::Print,
            value,
            bytes: printed,
        },
        Entry::Lease { pid: 1, budget: 8 },
        Entry::Advance { clock: 50 },
    ];
    render(alloc, &entries)
}

#[test]
fn transcripts_follow_the_entries(rt: HostRuntime) -> Result<(), Fail> {
    let lines = transcript(rt.alloc())?;
    assert!(rt; lines.as_slice() == b"5-- time 50\n".as_slice());
    Ok(())
}
