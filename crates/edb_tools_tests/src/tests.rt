//! Runs of the tool over memory, with what they write.

use crate::layouts::SHOP;
use edb_io::{Files, MemFiles, MemSink, Sink};
use edb_tools::{ToolEnd, tool};
use std::alloc::{AllocError, Global};
use std::test::Fail;

/// A string that isn't closed, at byte 12.
const OPEN: &[u8] = b"-module(a).\n\"x";

/// A string directly after a string, at byte 22.
const JOINED: &[u8] = b"-module(a).\nf() -> \"a\"\"b\".";

/// The first four lines of a module, of which the last function is cut short.
const CUT: &[u8] = b"-module(shop).\n-export([main/0]).\nmain() ->\n    X = sum(2, 3),\n";

/// A call of a call, which is none.
const CALLED: &[u8] = b"-module(a).\nf() -> g(1)(2).\n";

/// `B` is bound in one clause alone.
const UNSAFE: &[u8] =
    b"-module(a).\n-export([f/1]).\nf(A) ->\n    case A of\n        1 -> B = 2;\n        _ -> C = 3\n    end,\n    B.\n";

/// Two strings in a row, which are one, in a function that nothing calls.
const STRINGS: &[u8] = b"-module(a).\nf() -> \"a\" \"b\".\n";

/// The generated run with one worker.
const ONE_WORKER: &[u8] = b"-module(gen).
-export([main/1, work/1]).
main(N) ->
    Me = self(),
    tell([spawn(gen, work, [Me]) || _ <- lists:seq(1, N)], 1),
    collect(N, 0).
tell([], _) -> ok;
tell([P | Ps], I) ->
    P ! {add, I},
    tell(Ps, I + 1).
work(Boss) ->
    receive
        {add, I} ->
            Boss ! {done, I * I}
    end.
collect(0, Sum) -> Sum;
collect(N, Sum) ->
    receive
        {done, S} ->
            collect(N - 1, Sum + S)
    end.
%% script
ii gen
ib gen 14
start gen main [1]
await any break
continue *
await $1 exit
";

/// One run: its words, the content of `a.erl`, the read and the write that fail, and what is wanted.
#[derive(Clone, Copy)]
struct Row<'a> {
    words: &'a [&'a str],
    content: &'a [u8],
    failing_read: u32,
    failing_write: u32,
    status: u8,
    file: Option<u32>,
    written: &'a [u8],
}

/// A run through the bounds alone.
fn run_by<F: Files, S: Sink>(
    alloc: Global,
    words: &[String],
    files: &mut F,
    sink: &mut S,
) -> (ToolEnd, u8) {
    tool(alloc, words, files, sink)
}

/// The file that an end names.
fn file_of(end: ToolEnd) -> Option<u32> {
    match end {
        ToolEnd::FileFault { file } => Some(file),
        ToolEnd::ModuleRefused { file, .. } => Some(file),
        _ => None,
    }
}

/// Whether a run ends and writes as its row wants.
fn is_as_wanted(alloc: Global, row: &Row<'_>) -> Result<bool, AllocError> {
    let mut files = MemFiles::new(alloc);
    files.add("a.erl", row.content)?;
    files.add("shop.erl", SHOP)?;
    files.add("small.erl", b"-module(small).\n")?;
    files.fail(row.failing_read)?;
    let mut sink = MemSink::new(alloc);
    sink.fail(row.failing_write)?;
    let mut words = Vec::new(alloc);
    for word in row.words {
        words.push(String::from_str(alloc, word)?)?;
    }
    let (end, status) = run_by(alloc, &words, &mut files, &mut sink);
    Ok(status == row.status && file_of(end) == row.file && sink.written() == row.written)
}

/// A row without a read or a write that fails.
fn make_row<'a>(
    words: &'a [&'a str],
    content: &'a [u8],
    status: u8,
    file: Option<u32>,
    written: &'a [u8],
) -> Row<'a> {
    Row {
        words,
        content,
        failing_read: 0,
        failing_write: 0,
        status,
        file,
        written,
    }
}

#[test]
fn ends_and_writes(rt: HostRuntime) -> Result<(), Fail> {
    let rows = [
        make_row(&["check", "shop.erl"], OPEN, 0, None, b"shop.erl: ok\n"),
        make_row(
            &["check", "shop.erl", "small.erl"],
            OPEN,
            0,
            None,
            b"shop.erl: ok\nsmall.erl: ok\n",
        ),
        make_row(
            &["check", "a.erl"],
            OPEN,
            4,
            Some(0),
            b"a.erl: scan fault at byte 12\n",
        ),
        make_row(
            &["check", "a.erl"],
            JOINED,
            4,
            Some(0),
            b"a.erl: scan fault at byte 22\n",
        ),
        make_row(
            &["check", "a.erl"],
            b"",
            4,
            Some(0),
            b"a.erl: form 1 line 1\n",
        ),
        make_row(
            &["check", "a.erl"],
            CUT,
            4,
            Some(0),
            b"a.erl: form 3 line 3\n",
        ),
        make_row(
            &["check", "small.erl", "a.erl"],
            CALLED,
            4,
            Some(1),
            b"a.erl: form 2 line 2\n",
        ),
        make_row(
            &["check", "shop.erl", "a.erl"],
            OPEN,
            4,
            Some(1),
            b"a.erl: scan fault at byte 12\n",
        ),
        make_row(
            &["check", "a.erl", "a.erl"],
            OPEN,
            4,
            Some(0),
            b"a.erl: scan fault at byte 12\n",
        ),
        make_row(&[], OPEN, 2, None, b"edbtool: words\n"),
        make_row(
            &["check", "a.erl"],
            UNSAFE,
            4,
            Some(0),
            b"a.erl: line 8 unsafe\n",
        ),
        make_row(
            &["fmt", "a.erl"],
            UNSAFE,
            4,
            Some(0),
            b"a.erl: line 8 unsafe\n",
        ),
        make_row(&["fmt", "shop.erl"], OPEN, 0, None, SHOP),
        make_row(
            &["fmt", "a.erl"],
            STRINGS,
            0,
            None,
            b"-module(a).\nf() ->\n    \"ab\".\n",
        ),
        make_row(
            &["fmt", "none.erl"],
            OPEN,
            3,
            Some(0),
            b"edbtool: cannot read none.erl\n",
        ),
        make_row(&["fmt"], OPEN, 2, None, b"edbtool: words\n"),
        make_row(&["fmt", "-x"], OPEN, 2, None, b"edbtool: words\n"),
        make_row(
            &["fmt", "shop.erl", "small.erl"],
            OPEN,
            2,
            None,
            b"edbtool: words\n",
        ),
        make_row(&["gen", "1"], OPEN, 0, None, ONE_WORKER),
        make_row(&["gen", "0000001"], OPEN, 0, None, ONE_WORKER),
        make_row(&["gen", "00000001"], OPEN, 2, None, b"edbtool: words\n"),
        make_row(&["gen", "0"], OPEN, 2, None, b"edbtool: words\n"),
        make_row(&["gen", "201"], OPEN, 2, None, b"edbtool: words\n"),
        make_row(&["gen", "+1"], OPEN, 2, None, b"edbtool: words\n"),
        make_row(&["gen", ""], OPEN, 2, None, b"edbtool: words\n"),
        make_row(&["gen"], OPEN, 2, None, b"edbtool: words\n"),
        make_row(&["gen", "1", "1"], OPEN, 2, None, b"edbtool: words\n"),
        make_row(&["check"], OPEN, 2, None, b"edbtool: words\n"),
        make_row(&["check", "-x"], OPEN, 2, None, b"edbtool: words\n"),
        make_row(
            &["check", "shop.erl", "--all"],
            OPEN,
            2,
            None,
            b"edbtool: words\n",
        ),
        make_row(
            &["check", "none.erl"],
            OPEN,
            3,
            Some(0),
            b"edbtool: cannot read none.erl\n",
        ),
        make_row(
            &["check", "shop.erl", "-"],
            OPEN,
            3,
            Some(1),
            b"edbtool: cannot read -\n",
        ),
        make_row(
            &["check", "a.erl", "none.erl"],
            OPEN,
            3,
            Some(1),
            b"edbtool: cannot read none.erl\n",
        ),
    ];
    for (place, row) in rows.iter().enumerate() {
        assert!(rt; is_as_wanted(rt.alloc(), row)?, "row {place}");
    }
    Ok(())
}

#[test]
fn faults_end_it(rt: HostRuntime) -> Result<(), Fail> {
    let two: [&str; 3] = ["check", "shop.erl", "small.erl"];
    let rows: [(u32, u32, u8, Option<u32>, &[u8]); 6] = [
        (0, 1, 7, None, b""),
        (0, 2, 7, None, b"shop.erl: ok\n"),
        (0, 3, 0, None, b"shop.erl: ok\nsmall.erl: ok\n"),
        (1, 0, 3, Some(0), b"edbtool: cannot read shop.erl\n"),
        (2, 0, 3, Some(1), b"edbtool: cannot read small.erl\n"),
        // A fault of the write of a refusal's line changes nothing in the end.
        (2, 1, 3, Some(1), b""),
    ];
    for (failing_read, failing_write, status, file, written) in rows {
        let row = Row {
            words: &two,
            content: OPEN,
            failing_read,
            failing_write,
            status,
            file,
            written,
        };
        assert!(rt;
            is_as_wanted(rt.alloc(), &row)?,
            "read {failing_read}, write {failing_write}"
        );
    }
    Ok(())
}

#[test]
fn lays_out_in_one_write(rt: HostRuntime) -> Result<(), Fail> {
    let rows: [(u32, u8, &[u8]); 2] = [(1, 7, b""), (2, 0, SHOP)];
    for (failing_write, status, written) in rows {
        let row = Row {
            words: &["fmt", "shop.erl"],
            content: OPEN,
            failing_read: 0,
            failing_write,
            status,
            file: None,
            written,
        };
        assert!(rt; is_as_wanted(rt.alloc(), &row)?, "write {failing_write}");
    }
    Ok(())
}
