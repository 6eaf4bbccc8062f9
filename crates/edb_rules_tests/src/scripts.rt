//! Scripts of one console, and what is read of them.

use edb_cmds::read_commands;
use edb_event::{Command, Word};
use edb_words::{ProcessForm, put_call, put_name, put_number, put_text, put_word};
use std::alloc::{AllocError, Global};
use std::process::Abort;
use std::test::Fail;

// Scripts, and their commands in their words. A process has no number yet, so it is 0, and the word that
// names it comes last.
const LISTINGS: [(&'static [u8], &'static str); 18] = [
    (b"start m go []", "start m go []\n"),
    (b"start m go []\n", "start m go []\n"),
    (
        b"  start   'my mod'  go [1] % words\n",
        "start 'my mod' go [1]\n",
    ),
    (
        b"ii shop\nib shop 7\nstart shop go []\nawait $1 break\nia $1\nbindings $1\ncontinue $1\n",
        "ii shop\nib shop 7\nstart shop go []\nawait 0 break $1\nia 0 $1\nbindings 0 $1\ncontinue 0 $1\n",
    ),
    (
        b"start m f []\nawait 1 idle",
        "start m f []\nawait 0 idle 1\n",
    ),
    (
        b"start m f []\nawait 1 running",
        "start m f []\nawait 0 running 1\n",
    ),
    (
        b"start m f []\nawait 1 waiting",
        "start m f []\nawait 0 waiting 1\n",
    ),
    (
        b"start m f []\n  await  1  exit  ",
        "start m f []\nawait 0 exit 1\n",
    ),
    (b"start m f []\nii 'a b'  ", "start m f []\nii 'a b'\n"),
    (b"start m f []\nib m 1", "start m f []\nib m 1\n"),
    (b"start m f []\nib m 999999", "start m f []\nib m 999999\n"),
    (b"start m f []\nib m 0000007", "start m f []\nib m 7\n"),
    (b"start m f []\nia 9999999", "start m f []\nia 0 9999999\n"),
    (b"start m f []\nia 0", "start m f []\nia 0 0\n"),
    (b"start m f []\nia $0", "start m f []\nia 0 $0\n"),
    (
        b"\n\n  \n% words\n  % ii m\nstart m f []\n\n",
        "start m f []\n",
    ),
    (b"%\xff\nstart m f []", "start m f []\n"),
    (b"start m f []\n%", "start m f []\n"),
];

// Scripts of a start alone, and that start in its words.
const STARTS: [(&'static [u8], &'static str); 14] = [
    (
        b"  start   'my mod'  go [1,-2,$a]",
        "start 'my mod' go [1,-2,97]\n",
    ),
    (b"start m go \"abc\"", "start m go [97,98,99]\n"),
    (b"start m go \"a\" \"b\"", "start m go [97,98]\n"),
    (b"start m go [1|[2]]", "start m go [1,2]\n"),
    (b"start m go [1,2|\"ab\"]", "start m go [1,2,97,98]\n"),
    (b"start m go [1|[2|[3|[]]]]", "start m go [1,2,3]\n"),
    (b"start m go \"\"", "start m go []\n"),
    (b"start m go [] % words", "start m go []\n"),
    (b"start m go [ 1 ,\t- 2 ] ", "start m go [1,-2]\n"),
    (
        b"start a@B_9 'a\\'b' [16#fF]",
        "start a@B_9 'a\\'b' [255]\n",
    ),
    (
        b"start m go [-170141183460469231731687303715884105727]",
        "start m go [-170141183460469231731687303715884105727]\n",
    ),
    (b"start m go []\n\n", "start m go []\n"),
    (b"start m go []\n ", "start m go []\n"),
    (b"\nstart m go []", "start m go []\n"),
];

// Scripts, and the line at which each is refused.
const REFUSED: [(&'static [u8], u32); 37] = [
    (b"", 1),
    (b"\n", 2),
    (b"% words", 2),
    (b"ii m", 2),
    (b"ii m\n", 2),
    (b"ii m\n\n", 3),
    (b"start m f []\nstart m f []", 2),
    (b"start m f []\n\n\nstart m f []\n?", 4),
    (b"?\nstart m f []\nstart m f []", 1),
    (b"ii m\n?", 2),
    (b"start m f []\nib shop 0", 2),
    (b"start m f []\nib shop 1000000", 2),
    (b"start m f []\nib shop 00000007", 2),
    (b"start m f []\nib shop 99999999", 2),
    (b"start m f []\nib shop -1", 2),
    (b"start m f []\nib shop", 2),
    (b"start m f []\nib shop 7 7", 2),
    (b"start m f []\nib shop7", 2),
    (b"start m f []\nii m % words", 2),
    (b"start m f []\nii m n", 2),
    (b"start m f []\nii M", 2),
    (b"start m f []\nii", 2),
    (b"start m f []\niim", 2),
    (b"start m f []\nii\tm", 2),
    (b"start m f []\nii m\r", 2),
    (b"start m f []\n\tii m", 2),
    (b"start m f []\nia 10000000", 2),
    (b"start m f []\nia $10000000", 2),
    (b"start m f []\nia $", 2),
    (b"start m f []\nia $ 1", 2),
    (b"start m f []\nia *", 2),
    (b"start m f []\nia m", 2),
    (b"start m f []\nia 1,", 2),
    (b"start m f []\nawait 1 breaks", 2),
    (b"start m f []\nawait 1", 2),
    (b"1> start m f []", 1),
    (b"start m f []\nstep 1", 2),
];

// Scripts that are refused at a line for how it writes or follows a start.
const REFUSED_STARTS: [(&'static [u8], u32); 29] = [
    (b"start m go []\n\xff", 2),
    (b"stop\nstart m go []", 1),
    (b"stop", 1),
    (b"start", 1),
    (b"start m go", 1),
    (b"start m go ", 1),
    (b"start m go[]", 1),
    (b"start m 'go'[]", 1),
    (b"startm go []", 1),
    (b"start M go []", 1),
    (b"start if go []", 1),
    (b"start 'm go []", 1),
    (b"'start' m go []", 1),
    (b"start\tm go []", 1),
    (b"start m\tgo []", 1),
    (b"start m go\t[]", 1),
    (b"1> start m go []", 1),
    (b"start m go [x]", 1),
    (b"start m go [1|2]", 1),
    (b"start m go [1|[2]", 1),
    (b"start m go [1]]", 1),
    (b"start m go [][]", 1),
    (b"start m go [1,]", 1),
    (b"start m go [|[1]]", 1),
    (b"start m go [1 2]", 1),
    (b"start m go [-$a]", 1),
    (b"start m go [\"a\"]", 1),
    (b"start m go \"a\"\"b\"", 1),
    (b"start m go [170141183460469231731687303715884105728]", 1),
];

/// Puts a space and the word of a script for a process, if there is one.
fn put_process_word(out: &mut Vec<u8>, alloc: Global, word: &Word) -> Result<(), AllocError> {
    match word {
        Word::Absent => Ok(()),
        Word::Number(pid) => put_number(out, alloc, u64::from(*pid)),
        Word::Own(place) => {
            put_text(out, " $")?;
            put_text(out, place.to_string(alloc)?.as_str())
        }
        Word::Named(name) => put_name(out, name),
        Word::Last => put_word(out, "*"),
    }
}

/// The words of commands, each command on a line.
fn shown(alloc: Global, commands: &[Command]) -> Result<Vec<u8>, AllocError> {
    let mut out = Vec::new(alloc);
    for command in commands {
        put_call(&mut out, alloc, &command.call, ProcessForm::Plain)?;
        put_process_word(&mut out, alloc, &command.word)?;
        put_text(&mut out, "\n")?;
    }
    Ok(out)
}

fn accept(rt: &impl Abort, alloc: Global, script: &[u8], want: &str) -> Result<(), Fail> {
    match read_commands(alloc, script)? {
        Ok(commands) => {
            let lines = shown(alloc, commands.as_slice())?;
            assert!(rt; lines.as_slice() == want.as_bytes(), "{want}");
        }
        Err(fault) => assert!(rt; false, "line {} of {want}", fault.line),
    }
    Ok(())
}

fn refuse(rt: &impl Abort, alloc: Global, script: &[u8], line: u32) -> Result<(), Fail> {
    let refused = match read_commands(alloc, script)? {
        Ok(_) => None,
        Err(fault) => Some(fault.line),
    };
    assert_eq!(rt; refused, Some(line));
    Ok(())
}

#[test]
fn listings_are_read(rt: HostRuntime) -> Result<(), Fail> {
    for (script, want) in LISTINGS {
        accept(&rt, rt.alloc(), script, want)?;
    }
    Ok(())
}

#[test]
fn starts_are_read(rt: HostRuntime) -> Result<(), Fail> {
    for (script, want) in STARTS {
        accept(&rt, rt.alloc(), script, want)?;
    }
    Ok(())
}

#[test]
fn listings_are_refused(rt: HostRuntime) -> Result<(), Fail> {
    for (script, line) in REFUSED {
        refuse(&rt, rt.alloc(), script, line)?;
    }
    Ok(())
}

#[test]
fn starts_are_refused(rt: HostRuntime) -> Result<(), Fail> {
    for (script, line) in REFUSED_STARTS {
        refuse(&rt, rt.alloc(), script, line)?;
    }
    Ok(())
}

/// A script with this filling so many times between its front and its end.
fn filled(
    alloc: Global,
    front: &[u8],
    filling: &[u8],
    times: usize,
    end: &[u8],
) -> Result<Vec<u8>, Fail> {
    let mut bytes = Vec::from_slice(alloc, front)?;
    for _ in 0..times {
        bytes.extend_from_slice(filling)?;
    }
    bytes.extend_from_slice(end)?;
    Ok(bytes)
}

#[test]
fn a_list_has_at_most_4000_elements(rt: HostRuntime) -> Result<(), Fail> {
    let alloc = rt.alloc();
    let most = filled(alloc, b"start m go [", b"1,", 3_999, b"1]")?;
    assert!(rt; read_commands(alloc, most.as_slice())?.is_ok());
    let more = filled(alloc, b"start m go [", b"1,", 4_000, b"1]")?;
    refuse(&rt, alloc, more.as_slice(), 1)?;
    let nested = filled(alloc, b"start m go ", b"[1|", 4_001, b"[]")?;
    refuse(&rt, alloc, nested.as_slice(), 1)
}

#[test]
fn a_listing_has_at_most_a_million_bytes(rt: HostRuntime) -> Result<(), Fail> {
    let alloc = rt.alloc();
    let most = filled(alloc, b"start m f []\n", b" ", 999_987, b"")?;
    accept(&rt, alloc, most.as_slice(), "start m f []\n")?;
    let long_line = filled(alloc, b"start m f []\n", b" ", 999_988, b"")?;
    refuse(&rt, alloc, long_line.as_slice(), 2)?;
    let lines = filled(alloc, b"start m f []\n", b"\n", 999_987, b"")?;
    accept(&rt, alloc, lines.as_slice(), "start m f []\n")?;
    let more_lines = filled(alloc, b"start m f []\n", b"\n", 999_988, b"")?;
    refuse(&rt, alloc, more_lines.as_slice(), 999_989)?;
    let bad_first = filled(alloc, b"?\n", b"\n", 1_000_000, b"")?;
    refuse(&rt, alloc, bad_first.as_slice(), 1)?;
    let no_start = filled(alloc, b"", b"\n", 1_000_000, b"")?;
    refuse(&rt, alloc, no_start.as_slice(), 1_000_001)
}
