//! Journals, the commands of consoles, and copies; the values were worked by hand.

ghost use Rattle.std.specs.Prelude.{◌≡◌};

use edb_event::{AutoFlag, Call, Command, Entry, Journal, Reply, Scripts, Word, entry_weight};
use edb_lang::{Bytes, Name, Rows};
use std::alloc::{AllocError, Global};
use std::test::Fail;

/// The weight of a Ran with so many moves, and so many made to ask conditions.
fn ran(moves: u16, cond: u16) -> u32 {
    entry_weight(&Entry::Ran {
        pid: 1,
        moves: u32::from(moves),
        cond: u32::from(cond),
    })
}

#[test]
fn entries_weigh(rt: HostRuntime) -> Result<(), Fail> {
    let table = [(0, 0, 1), (1, 0, 1), (0, 1, 1), (16, 0, 16), (8, 3, 11)];
    for (moves, cond, weight) in table {
        assert_eq!(rt; ran(moves, cond), weight);
    }
    assert_eq!(rt; entry_weight(&Entry::Advance { clock: 50 }), 1);
    Ok(())
}

#[test]
fn journals_grow(rt: HostRuntime) -> Result<(), Fail> {
    let mut journal = Journal::new(rt.alloc());
    journal.reserve(1)?;
    journal.push_reserved(Entry::Lease { pid: 1, budget: 8 });
    journal.push(Entry::Ran {
        pid: 1,
        moves: 8,
        cond: 0,
    })?;
    assert_eq!(rt; journal.entries().len(), 2);
    assert_eq!(rt; journal.weight(), 9);
    Ok(())
}

/// A command without words.
fn bare(call: Call) -> Command
    ensures { result ≡ record { call = call; word = Word.Absent } }
{
    Command {
        call,
        word: Word::Absent,
    }
}

/// Two commands of console 8, with one of console 1 between them.
fn scripts(alloc: Global) -> Result<Scripts, AllocError> {
    let mut scripts = Scripts::new(alloc);
    scripts.add(8, bare(Call::Ip))?;
    scripts.add(1, bare(Call::Il))?;
    scripts.add(8, bare(Call::Quit))?;
    Ok(scripts)
}

#[test]
fn consoles_stay_apart(rt: HostRuntime) -> Result<(), Fail> {
    let scripts = scripts(rt.alloc())?;
    assert!(rt;
        matches!(
            scripts.commands(8),
            [
                Command { call: Call::Ip, .. },
                Command {
                    call: Call::Quit,
                    ..
                }
            ]
        )
    );
    assert!(rt; matches!(scripts.commands(1), [Command { call: Call::Il, .. }]));
    assert!(rt; scripts.commands(2).is_empty());
    Ok(())
}

fn name(alloc: Global, text: &str) -> Result<Name, AllocError> {
    Name::from_str(alloc, text)
}

/// A copy of a command that has names, a line and a word.
fn copied_command(alloc: Global) -> Result<Command, AllocError> {
    let call = Call::Ibc {
        module: name(alloc, "shop")?,
        line: 7,
        cond: (name(alloc, "check")?, name(alloc, "rich")?),
    };
    let word = Word::Named(name(alloc, "till")?);
    Command { call, word }.copy(alloc)
}

fn is_copied(command: &Command) -> bool {
    match (&command.call, &command.word) {
        (Call::Ibc { module, line, cond }, Word::Named(till)) => {
            module.as_str() == "shop"
                && *line == 7
                && cond.0.as_str() == "check"
                && cond.1.as_str() == "rich"
                && till.as_str() == "till"
        }
        _ => false,
    }
}

/// A copy of the flags of a command.
fn copied_flags(alloc: Global) -> Result<Call, AllocError> {
    let mut flags = Rows::new(alloc);
    flags.push(AutoFlag::Break)?;
    flags.push(AutoFlag::Init)?;
    Call::Iaa { flags }.copy(alloc)
}

/// A copy of a reply of one row.
fn copied_rows(alloc: Global) -> Result<Reply, AllocError> {
    let mut rows = Rows::new(alloc);
    rows.push(Bytes::from_slice(alloc, b"X = 1")?)?;
    Reply::Rows(rows).copy(alloc)
}

fn has_flags(call: &Call) -> bool {
    match call {
        Call::Iaa { flags } => matches!(flags.as_slice(), [AutoFlag::Break, AutoFlag::Init]),
        _ => false,
    }
}

fn has_row(reply: &Reply) -> bool {
    match reply {
        Reply::Rows(rows) => match rows.as_slice() {
            [row] => row.as_slice() == b"X = 1".as_slice(),
            _ => false,
        },
        _ => false,
    }
}

#[test]
fn copies_are_equal(rt: HostRuntime) -> Result<(), Fail> {
    let alloc = rt.alloc();
    assert!(rt; is_copied(&copied_command(alloc)?));
    assert!(rt; has_flags(&copied_flags(alloc)?));
    assert!(rt; has_row(&copied_rows(alloc)?));
    Ok(())
}
