//! Sessions over memory, with what they write and leave.

use edb_event::Entry;
use edb_io::{Files, MemFiles, MemSink, Sink};
use edb_session::{Ending, session};
use std::alloc::{AllocError, Global};
use std::test::Fail;

pub(crate) const SHOP: &str =
    "-module(shop).\n-export([main/0]).\nmain() ->\n    X = sum(2, 3),\n    erlang:display(X).\nsum(A, B) ->\n    C = A + B,\n    C.\n";

const BIG: &str =
    "-module(big).\n-export([main/0]).\nmain() ->\n    170141183460469231731687303715884105727 + 1.\n";

const SPIN: &str = "-module(spin).\n-export([go/0]).\ngo() ->\n    go().\n";

const THIN: &str = "-module(m).\n-export([go/0]).\ngo() -> erlang:display(2 + 3).\n";

/// The words of a session.
fn words(alloc: Global, names: &[&str]) -> Result<Vec<String>, AllocError> {
    let mut words = Vec::new(alloc);
    for name in names {
        words.push(String::from_str(alloc, name)?)?;
    }
    Ok(words)
}

/// A session through the bounds alone.
fn run_by<F: Files, S: Sink + Drop>(
    alloc: Global,
    words: &[String],
    files: &mut F,
    sink: S,
) -> (Ending, S) {
    session(alloc, words, files, sink)
}

/// The ending and what was written of a session with this script `s` and this FILE `f.erl`, of which
/// this read and this write fail.
pub(crate) fn run(
    alloc: Global,
    script: &[u8],
    file: &[u8],
    failing_read: u32,
    failing_write: u32,
) -> Result<(Ending, MemSink), AllocError> {
    let mut files = MemFiles::new(alloc);
    files.add("s", script)?;
    files.add("f.erl", file)?;
    files.fail(failing_read)?;
    let mut sink = MemSink::new(alloc);
    sink.fail(failing_write)?;
    let words = words(alloc, &["s", "f.erl"])?;
    Ok(run_by(alloc, &words, &mut files, sink))
}

/// Whether such a session ends with this status and writes these bytes.
fn writes(
    alloc: Global,
    script: &str,
    file: &str,
    status: u8,
    text: &str,
) -> Result<bool, AllocError> {
    let (ending, sink) = run(alloc, script.as_bytes(), file.as_bytes(), 0, 0)?;
    Ok(ending.status == status && sink.written() == text.as_bytes())
}

#[test]
fn runs_and_refuses(rt: HostRuntime) -> Result<(), Fail> {
    for (script, file, status, text) in [
        (
            "start shop main []\n",
            SHOP,
            0,
            "-- 1 start <1> shop:main/0\n5\n-- <1> exit normal\n",
        ),
        (
            "start m go []",
            THIN,
            0,
            "-- 1 start <1> m:go/0\n5\n-- <1> exit normal\n",
        ),
        (
            "start big main []",
            BIG,
            0,
            "-- 1 start <1> big:main/0\n-- <1> exit {system_limit,[]}\n",
        ),
        (
            "start shop none []",
            SHOP,
            0,
            "-- 1 start <1> shop:none/0\n-- <1> exit {undef,[]}\n",
        ),
        (
            "start 'no mod' sum [1,2]",
            SHOP,
            0,
            "-- 1 start <1> 'no mod':sum/2\n-- <1> exit {undef,[]}\n",
        ),
        (
            "start erlang display [5]",
            SHOP,
            0,
            "-- 1 start <1> erlang:display/1\n5\n-- <1> exit normal\n",
        ),
        ("start spin go []", SPIN, 6, "-- 1 start <1> spin:go/0\n"),
        (
            "start m go []",
            "f() -> if true -> 1 end.",
            4,
            "f.erl: form 1 line 1\n",
        ),
        (
            "start m go []",
            "-module(m).\n-export([go/0]).\ngo() ->\n    X.\n",
            4,
            "f.erl: line 4 unbound\n",
        ),
        (
            "start m go []",
            "-module(m).\n-export([go/0]).\ngo() ->\n    if true -> 1 end.\n",
            4,
            "f.erl: not yet\n",
        ),
        ("stop", THIN, 5, "s: line 1\n"),
        ("start m go []\nstart m go []", THIN, 5, "s: line 2\n"),
        ("% nothing\n\nii m\n", THIN, 5, "s: line 4\n"),
    ] {
        assert!(rt; writes(rt.alloc(), script, file, status, text)?);
    }
    Ok(())
}

#[test]
fn debugs(rt: HostRuntime) -> Result<(), Fail> {
    for (script, file, text) in [
        // A breakpoint, the variables there, and on to the end; the line of the breakpoint isn't begun yet.
        (
            STOP,
            SHOP,
            "-- 1 ii shop: ok\n-- 1 ib shop 7: ok\n-- 1 start <1> shop:main/0\n-- <1> stop shop:7 level 2\n-- 1 await <1> break: <1> break\n-- 1 ia <1>: ok\n-- 1 bindings <1>: 2 rows\nA = 2\nB = 3\n-- 1 continue <1>: ok\n5\n-- <1> exit normal\n",
        ),
        // No module of that name, no such process, one that isn't interpreted.
        (
            "ii nope\ncontinue 9\nstart shop main []\ncontinue 1",
            SHOP,
            "-- 1 ii nope: no_module\n-- 1 continue <9>: no_process\n-- 1 start <1> shop:main/0\n-- 1 continue <1>: not_interpreted\n5\n-- <1> exit normal\n",
        ),
        // A place has one breakpoint; without `ii` it stops nobody.
        (
            "ib shop 7\nib shop 7\nstart shop main []",
            SHOP,
            "-- 1 ib shop 7: ok\n-- 1 ib shop 7: break_exists\n-- 1 start <1> shop:main/0\n5\n-- <1> exit normal\n",
        ),
        // A process that stays stopped doesn't end.
        (
            "ii shop\nib shop 7\nstart shop main []\nawait $1 exit",
            SHOP,
            "-- 1 ii shop: ok\n-- 1 ib shop 7: ok\n-- 1 start <1> shop:main/0\n-- <1> stop shop:7 level 2\n-- 1 await <1> exit: quiet\n",
        ),
        // Before the start `$1` is no process yet.
        (
            "await $1 break\nstart m go []",
            THIN,
            "-- 1 await <0> break: quiet\n-- 1 start <1> m:go/0\n5\n-- <1> exit normal\n",
        ),
    ] {
        assert!(rt; writes(rt.alloc(), script, file, 0, text)?);
    }
    Ok(())
}

/// Whether a session with these words, where there is a script `s` alone, ends with this status and
/// writes this line.
fn refuses(alloc: Global, names: &[&str], status: u8, line: &str) -> Result<bool, AllocError> {
    let mut files = MemFiles::new(alloc);
    files.add("s", b"start m go []")?;
    let words = words(alloc, names)?;
    let (ending, sink) = run_by(alloc, &words, &mut files, MemSink::new(alloc));
    Ok(ending.status == status && sink.written() == line.as_bytes())
}

#[test]
fn refuses_words_and_names(rt: HostRuntime) -> Result<(), Fail> {
    let alloc = rt.alloc();
    assert!(rt; refuses(alloc, &[], 2, "edb: words\n")?);
    assert!(rt; refuses(alloc, &["-x", "f.erl"], 2, "edb: words\n")?);
    assert!(rt; refuses(alloc, &["s"], 2, "edb: words\n")?);
    assert!(rt;
        refuses(
            alloc,
            &["s", "no.erl", "--slice", "4097"],
            2,
            "edb: words\n"
        )?
    );
    assert!(rt; refuses(alloc, &["s", "no.erl", "--journal=1"], 2, "edb: words\n")?);
    assert!(rt;
        refuses(
            alloc,
            &["s", "--", "--journal"],
            3,
            "edb: cannot read --journal\n"
        )?
    );
    assert!(rt;
        refuses(
            alloc,
            &["s", "no.erl", "g.erl"],
            3,
            "edb: cannot read no.erl\n"
        )?
    );
    Ok(())
}

/// Whether a session with these words and this script `s`, beside the FILEs `shop.erl`, `spin.erl` and `none.erl`, ends
/// with this status and writes these bytes.
fn answers(
    alloc: Global,
    names: &[&str],
    script: &str,
    status: u8,
    text: &str,
) -> Result<bool, AllocError> {
    let mut files = MemFiles::new(alloc);
    files.add("s", script.as_bytes())?;
    files.add("shop.erl", SHOP.as_bytes())?;
    files.add("spin.erl", SPIN.as_bytes())?;
    files.add("none.erl", b"f() -> if true -> 1 end.")?;
    let words = words(alloc, names)?;
    let (ending, sink) = run_by(alloc, &words, &mut files, MemSink::new(alloc));
    Ok(ending.status == status && sink.written() == text.as_bytes())
}

/// The journal's text of the shop's run, in slices of at most 16 moves.
const JOURNAL: &str =
    "edb 1\nstart 1 1 shop main []\nlease 1 16\nran 1 16 0\ndid 1 print 74727565 350a\nlease 1 16\nran 1 1 0\ndid 1 end 6e6f726d616c -\n";

#[test]
fn takes_options_and_files(rt: HostRuntime) -> Result<(), Fail> {
    for (names, script, status, text) in [
        (
            ["s", "shop.erl", "spin.erl"].as_slice(),
            "ii spin\nstart shop main []\n",
            0,
            "-- 1 ii spin: ok\n-- 1 start <1> shop:main/0\n5\n-- <1> exit normal\n",
        ),
        // The first FILE that is no module is named, before the script is looked at.
        (
            ["s", "shop.erl", "none.erl", "none.erl"].as_slice(),
            "stop",
            4,
            "none.erl: form 1 line 1\n",
        ),
        (
            ["s", "shop.erl", "spin.erl"].as_slice(),
            "stop",
            5,
            "s: line 1\n",
        ),
        (
            ["--slice=16", "s", "--journal", "shop.erl"].as_slice(),
            "start shop main []",
            0,
            JOURNAL,
        ),
        // A journal is over at the weight that the words say.
        (
            ["--moves", "5", "--journal", "s", "spin.erl"].as_slice(),
            "start spin go []",
            6,
            "edb 1\nstart 1 1 spin go []\nlease 1 3\nran 1 3 0\n",
        ),
    ] {
        assert!(rt; answers(rt.alloc(), names, script, status, text)?);
    }
    Ok(())
}

/// Whether a session of this script and the shop, of which this read and this write fail, ends with
/// this status and writes these bytes.
fn meets(
    alloc: Global,
    script: &str,
    failing_read: u32,
    failing_write: u32,
    status: u8,
    text: &str,
) -> Result<bool, AllocError> {
    let (ending, sink) = run(
        alloc,
        script.as_bytes(),
        SHOP.as_bytes(),
        failing_read,
        failing_write,
    )?;
    Ok(ending.status == status && sink.written() == text.as_bytes())
}

#[test]
fn meets_faults(rt: HostRuntime) -> Result<(), Fail> {
    for (script, read, write, status, text) in [
        ("start shop main []", 1, 0, 3, "edb: cannot read s\n"),
        ("start shop main []", 2, 0, 3, "edb: cannot read f.erl\n"),
        ("start shop main []", 0, 1, 7, ""),
        (
            "start shop main []",
            0,
            2,
            7,
            "-- 1 start <1> shop:main/0\n",
        ),
        (
            "start shop main []",
            0,
            3,
            7,
            "-- 1 start <1> shop:main/0\n5\n",
        ),
        ("stop", 0, 1, 5, ""),
    ] {
        assert!(rt; meets(rt.alloc(), script, read, write, status, text)?);
    }
    Ok(())
}

/// A script that stops at a breakpoint, looks at the variables and goes on.
pub(crate) const STOP: &str =
    "ii shop\nib shop 7\nstart shop main []\nawait $1 break\nia $1\nbindings $1\ncontinue $1\n";

#[test]
fn writes_each_entry_at_once(rt: HostRuntime) -> Result<(), Fail> {
    // The reply with the variables, of three lines, is write 7.
    let up_to_variables =
        "-- 1 ii shop: ok\n-- 1 ib shop 7: ok\n-- 1 start <1> shop:main/0\n-- <1> stop shop:7 level 2\n-- 1 await <1> break: <1> break\n-- 1 ia <1>: ok\n-- 1 bindings <1>: 2 rows\nA = 2\nB = 3\n";
    assert!(rt; meets(rt.alloc(), STOP, 0, 8, 7, up_to_variables)?);
    Ok(())
}

/// A script of refusals, and what it writes.
const REFUSALS: &str =
    "ii shop\nii shop\nib shop 4\nstart shop main []\nawait $1 idle\nbindings $1\nawait $1 break\nbindings $1\nbindings 9\nia 9\nia $1\nia $1\ncontinue $1\nawait $1 running\nbindings $1\ncontinue $1\nawait $1 exit\nbindings $1\nia $1\ncontinue $1\n";

const REFUSED: &str =
    "-- 1 ii shop: ok\n-- 1 ii shop: ok\n-- 1 ib shop 4: ok\n-- 1 start <1> shop:main/0\n-- 1 await <1> idle: <1> idle\n-- 1 bindings <1>: not_interpreted\n-- <1> stop shop:4 level 1\n-- 1 await <1> break: <1> break\n-- 1 bindings <1>: not_attached\n-- 1 bindings <9>: no_process\n-- 1 ia <9>: no_process\n-- 1 ia <1>: ok\n-- 1 ia <1>: already_attached\n-- 1 continue <1>: ok\n-- 1 await <1> running: <1> running\n-- 1 bindings <1>: not_stopped\n-- 1 continue <1>: ok\n5\n-- <1> exit normal\n-- 1 await <1> exit: <1> exit\n-- 1 bindings <1>: not_interpreted\n-- 1 ia <1>: not_interpreted\n-- 1 continue <1>: not_interpreted\n";

#[test]
fn refuses_commands(rt: HostRuntime) -> Result<(), Fail> {
    assert!(rt; writes(rt.alloc(), REFUSALS, SHOP, 0, REFUSED)?);
    Ok(())
}

/// The status of a session whose FILE is a module followed by spaces, so many bytes in all.
fn status_of_padded(alloc: Global, bytes: usize) -> Result<u8, AllocError> {
    let mut text = Vec::from_slice(alloc, THIN.as_bytes())?;
    for _ in THIN.len()..bytes {
        text.push(b' ')?;
    }
    let (ending, _sink) = run(alloc, b"start m go []", &text, 0, 0)?;
    Ok(ending.status)
}

#[test]
fn measures_files(rt: HostRuntime) -> Result<(), Fail> {
    let alloc = rt.alloc();
    assert!(rt; status_of_padded(alloc, 1_000_000)? == 0);
    assert!(rt; status_of_padded(alloc, 1_000_001)? == 4);
    Ok(())
}

/// What a journal has: so many entries, so many leases, the last of this budget, the moves of each
/// slice added up, and those of the first one; and its weight.
#[derive(Clone, Copy, PartialEq, Eq, Debug)]
struct Count {
    entries: usize,
    leases: u32,
    last_budget: u32,
    first_moves: u32,
    moves: u32,
    weight: u32,
}

impl Count {
    /// The count with one entry more.
    fn and(self, entry: &Entry) -> Count {
        match entry {
            Entry::Lease { budget, .. } => Count {
                leases: self.leases.saturating_add(1),
                last_budget: *budget,
                weight: self.weight.saturating_add(1),
                ..self
            },
            Entry::Ran { moves, .. } => Count {
                first_moves: if self.moves == 0 {
                    *moves
                } else {
                    self.first_moves
                },
                moves: self.moves.saturating_add(*moves),
                weight: self.weight.saturating_add((*moves).max(1)),
                ..self
            },
            _ => Count {
                weight: self.weight.saturating_add(1),
                ..self
            },
        }
    }
}

/// The count of a session's journal.
fn count_of(alloc: Global, script: &str, file: &str) -> Result<Count, AllocError> {
    let (ending, _sink) = run(alloc, script.as_bytes(), file.as_bytes(), 0, 0)?;
    let mut count = Count {
        entries: ending.journal.entries().len(),
        leases: 0,
        last_budget: 0,
        first_moves: 0,
        moves: 0,
        weight: 0,
    };
    for entry in ending.journal.entries() {
        count = count.and(entry);
    }
    Ok(count)
}

#[test]
fn leaves_journals(rt: HostRuntime) -> Result<(), Fail> {
    let alloc = rt.alloc();
    let shop = Count {
        entries: 7,
        leases: 2,
        last_budget: 100,
        first_moves: 16,
        moves: 17,
        weight: 22,
    };
    assert!(rt; count_of(alloc, "start shop main []", SHOP)? == shop);
    let spin = Count {
        entries: 1983,
        leases: 991,
        last_budget: 8,
        first_moves: 100,
        moves: 99_008,
        weight: 100_000,
    };
    assert!(rt; count_of(alloc, "start spin go []", SPIN)? == spin);
    Ok(())
}
