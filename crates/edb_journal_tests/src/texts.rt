//! Journals and their texts.

use edb_event::{AutoFlag, Call, Cause, Entry, Journal, ProcStatus, Refusal, Reply};
use edb_journal::{entry_line, write_journal};
use edb_lang::{ActKind, Action, Bytes, Name, Rows, Term};
use std::alloc::{AllocError, Global};
use std::test::Fail;

fn name(alloc: Global, text: &str) -> Result<Name, AllocError> {
    Name::from_str(alloc, text)
}

fn bytes(alloc: Global, text: &str) -> Result<Bytes, AllocError> {
    Bytes::from_slice(alloc, text.as_bytes())
}

/// Whether an entry has this line.
fn is_line(alloc: Global, entry: &Entry, text: &str) -> Result<bool, AllocError> {
    let line = entry_line(alloc, entry)?;
    Ok(line.as_slice() == text.as_bytes())
}

/// Whether a command of console 2 and its reply have this line.
fn answers(alloc: Global, call: Call, reply: Reply, text: &str) -> Result<bool, AllocError> {
    let served = Entry::Served {
        console: 2,
        call,
        reply,
    };
    is_line(alloc, &served, text)
}

/// The start of `shop:main`.
fn start(alloc: Global) -> Result<Entry, AllocError> {
    Ok(Entry::Start {
        console: 1,
        pid: 1,
        module: name(alloc, "shop")?,
        name: name(alloc, "main")?,
        args: Term::nil(),
    })
}

/// An act of process 1.
fn act(alloc: Global, kind: ActKind, value: &str, printed: &str) -> Result<Entry, AllocError> {
    Ok(Entry::Did {
        pid: 1,
        kind,
        value: bytes(alloc, value)?,
        bytes: bytes(alloc, printed)?,
    })
}

/// A process that has a lease, and its slice.
fn sliced(alloc: Global) -> Result<Journal, AllocError> {
    let mut journal = Journal::new(alloc);
    journal.push(Entry::Lease {
        pid: 1,
        budget: 100,
    })?;
    journal.push(Entry::Ran {
        pid: 1,
        moves: 16,
        cond: 0,
    })?;
    Ok(journal)
}

#[test]
fn journals_have_a_line_for_each_entry(rt: HostRuntime) -> Result<(), Fail> {
    let journal = sliced(rt.alloc())?;
    let text = write_journal(rt.alloc(), &journal)?;
    assert!(rt; text.as_slice() == b"edb 1\nlease 1 100\nran 1 16 0\n".as_slice());
    let empty = write_journal(rt.alloc(), &Journal::new(rt.alloc()))?;
    assert!(rt; empty.as_slice() == b"edb 1\n".as_slice());
    Ok(())
}

#[test]
fn starts_and_acts_have_lines(rt: HostRuntime) -> Result<(), Fail> {
    let alloc = rt.alloc();
    let entry = start(alloc)?;
    assert!(rt; is_line(alloc, &entry, "start 1 1 shop main []\n")?);
    let entry = act(alloc, ActKind::Print, "true", "5\n")?;
    assert!(rt; is_line(alloc, &entry, "did 1 print 74727565 350a\n")?);
    let entry = act(alloc, ActKind::End, "normal", "")?;
    assert!(rt; is_line(alloc, &entry, "did 1 end 6e6f726d616c -\n")?);
    Ok(())
}

#[test]
fn stops_have_lines(rt: HostRuntime) -> Result<(), Fail> {
    let alloc = rt.alloc();
    let stop = Entry::Stop {
        pid: 3,
        module: name(alloc, "Shop")?,
        line: 7,
        level: 2,
        by: Cause::Break(4),
    };
    assert!(rt; is_line(alloc, &stop, "stop 3 'Shop' 7 2 break 4\n")?);
    Ok(())
}

#[test]
fn triggers_have_lines(rt: HostRuntime) -> Result<(), Fail> {
    let alloc = rt.alloc();
    let trigger = Entry::Trigger {
        pid: 3,
        module: name(alloc, "shop")?,
        line: 7,
        serial: 4,
        action: Action::Delete,
        applied: false,
    };
    assert!(rt; is_line(alloc, &trigger, "trigger 3 shop 7 4 delete 0\n")?);
    Ok(())
}

#[test]
fn processes_have_lines(rt: HostRuntime) -> Result<(), Fail> {
    let alloc = rt.alloc();
    let enter = Entry::Enter {
        pid: 2,
        module: name(alloc, "shop")?,
        name: name(alloc, "sell")?,
        arity: 3,
    };
    assert!(rt; is_line(alloc, &enter, "enter 2 shop sell 3\n")?);
    assert!(rt; is_line(alloc, &Entry::Leave { pid: 2 }, "leave 2\n")?);
    assert!(rt; is_line(alloc, &Entry::Signal { to: 2, ended: None }, "signal 2\n")?);
    let ended = Some(bytes(alloc, "ok")?);
    assert!(rt; is_line(alloc, &Entry::Signal { to: 2, ended }, "signal 2 6f6b\n")?);
    assert!(rt; is_line(alloc, &Entry::Advance { clock: 50 }, "advance 50\n")?);
    Ok(())
}

#[test]
fn answers_have_lines(rt: HostRuntime) -> Result<(), Fail> {
    let alloc = rt.alloc();
    let mut flags = Rows::new(alloc);
    flags.push(AutoFlag::Break)?;
    flags.push(AutoFlag::Init)?;
    let call = Call::Iaa { flags };
    assert!(rt; answers(alloc, call, Reply::Ok, "served 2 iaa break init = ok\n")?);
    let call = Call::Ii {
        module: name(alloc, "shop")?,
    };
    let refused = Reply::Refused(Refusal::NoModule);
    assert!(rt;
        answers(
            alloc,
            call,
            refused,
            "served 2 ii shop = refused no_module\n"
        )?
    );
    let call = Call::Await {
        pid: 12,
        status: ProcStatus::Break,
    };
    let status = Reply::Status {
        pid: 12,
        status: ProcStatus::Break,
    };
    assert!(rt;
        answers(
            alloc,
            call,
            status,
            "served 2 await 12 break = status 12 break\n"
        )?
    );
    let mut rows = Rows::new(alloc);
    rows.push(bytes(alloc, "X = 1")?)?;
    rows.push(bytes(alloc, "")?)?;
    let found = Reply::Rows(rows);
    assert!(rt;
        answers(
            alloc,
            Call::Ip,
            found,
            "served 2 ip = rows 2 58203d2031 -\n"
        )?
    );
    Ok(())
}
