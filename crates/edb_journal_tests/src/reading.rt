//! Journals that are read: texts that are read as they were written, and the lines at which others are refused.

use edb_journal::write_journal;
use edb_journal_read::{JournalError, read_journal};
use std::alloc::{AllocError, Global};
use std::test::Fail;

/// How a text reads.
#[derive(Clone, Copy, Debug, PartialEq, Eq)]
enum Reading {
    /// As a journal whose text it is.
    Same,
    /// As a journal with another text.
    Other,
    /// It is refused at this line.
    Refused(u32),
}

fn judged(alloc: Global, text: &[u8]) -> Result<Reading, AllocError> {
    let journal = match read_journal(alloc, text) {
        Ok(journal) => journal,
        Err(JournalError::Fault(line)) => return Ok(Reading::Refused(line)),
        Err(JournalError::Memory) => return Err(AllocError),
    };
    let written = write_journal(alloc, &journal)?;
    if written.as_slice() == text {
        Ok(Reading::Same)
    } else {
        Ok(Reading::Other)
    }
}

/// How a text reads whose third line, of four, is this one.
fn third(alloc: Global, line: &str) -> Result<Reading, AllocError> {
    let text = format!(in alloc; "edb 1\nlease 1 100\n{line}\ntook 1\n")?;
    judged(alloc, text.as_bytes())
}

#[test]
fn lines_are_read_as_written(rt: HostRuntime) -> Result<(), Fail> {
    let table: [&'static str; 30] = [
        "start 8 4294967295 'Shop' 'a\\nb' []",
        "start 1 1 shop main [-170141183460469231731687303715884105727,'end',{},[1|{2}]]",
        "load 8 shop 4294967295",
        "load 1 shop 0",
        "lease 0 0",
        "lease 4294967295 4294967295",
        "ran 4294967295 0 0",
        "ran 1 1006998 0",
        "ran 1 0 1006998",
        "ask 4294967295 print",
        "did 4294967295 makeref - -",
        "did 1 end 00ff 350a",
        "took 4294967295",
        "forward 4294967295",
        "leave 4294967295",
        "enter 4294967295 shop '' 4294967295",
        "signal 4294967295",
        "signal 1 -",
        "signal 1 6f6b",
        "advance 0",
        "advance 18446744073709551615",
        "stop 4294967295 shop 4294967295 18446744073709551615 order",
        "stop 1 shop 7 2 break 340282366920938463463374607431768211455",
        "stop 1 shop 0 0 break 0",
        "trigger 4294967295 shop 4294967295 340282366920938463463374607431768211455 enable 0",
        "trigger 1 shop 7 0 disable 1",
        "trigger 1 shop 7 0 delete 1",
        "served 8 il = rows 0",
        "served 1 ip = rows 2 - 00ff",
        "served 1 quit = ok",
    ];
    for line in table {
        assert!(rt; third(rt.alloc(), line)? == Reading::Same);
    }
    Ok(())
}

#[test]
fn commands_are_read_as_written(rt: HostRuntime) -> Result<(), Fail> {
    let table: [&'static str; 42] = [
        "start shop main [] = refused system_limit",
        "load 'Shop' 999 = refused no_version",
        "load shop 1 = refused no_module",
        "ii shop = ok",
        "iq shop = refused not_interpreted",
        "il = rows 0",
        "ib shop 1 = ok",
        "ib shop 999999 = refused break_exists",
        "ib shop 'end' 255 = refused function_not_found",
        "ir = ok",
        "ir shop = ok",
        "ir shop 7 = ok",
        "ir shop sell 0 = ok",
        "ibd shop 7 = ok",
        "ibe shop 7 = ok",
        "iba shop 7 enable = ok",
        "iba shop 7 disable = ok",
        "iba shop 7 delete = ok",
        "ibc shop 7 check 'Rich' = ok",
        "ipb = rows 1 61",
        "ipb shop = rows 0",
        "ip = rows 0",
        "ic = ok",
        "iaa false = ok",
        "iaa init = ok",
        "iaa exit exit = ok",
        "iaa init break exit = ok",
        "ist all = ok",
        "ist true = ok",
        "ist no_tail = ok",
        "ist false = ok",
        "ia 9999999 = refused already_attached",
        "detach 0 = refused no_process",
        "step 1 = refused not_attached",
        "next 1 = refused not_stopped",
        "finish 1 = ok",
        "halt 1 = ok",
        "continue 1 = ok",
        "bindings 1 = rows 0",
        "frames 1 = rows 0",
        "await 9999999 break = status 4294967295 break",
        "await any idle = quiet",
    ];
    for command in table {
        let line = format!(in rt.alloc(); "served 1 {command}")?;
        assert!(rt; third(rt.alloc(), line.as_str())? == Reading::Same);
    }
    Ok(())
}

#[test]
fn other_lines_are_refused(rt: HostRuntime) -> Result<(), Fail> {
    let table: [&'static str; 56] = [
        "",
        " lease 1 100",
        "lease",
        "lease 1",
        "lease 1 100 ",
        "lease 1 100 1",
        "lease 01 100",
        "lease 1  100",
        "lease\t1 100",
        "lease 1 100\r",
        "lease +1 100",
        "lease 1 4294967296",
        "Lease 1 100",
        "leased 1 100",
        "edb 1",
        "start 0 1 shop main []",
        "start 9 1 shop main []",
        "start 1 4294967296 shop main []",
        "start 1 1 Shop main []",
        "start 1 1 'shop' main []",
        "start 1 1 shop main [1|2]",
        "start 1 1 shop main {}",
        "start 1 1 shop main [1, 2]",
        "start 1 1 shop main \"a\"",
        "start 1 1 shop main [<1>]",
        "start 1 1 shop main [170141183460469231731687303715884105728]",
        "load 9 shop 1",
        "load 1 shop 4294967296",
        "ran 1 1",
        "ran 1 4294967296 0",
        "ran 1 4294967295 4294967295",
        "ask 1 prints",
        "ask 4294967296 print",
        "did 1 print 3A -",
        "did 1 print 3 -",
        "did 1 print -",
        "took -1",
        "forward 4294967296",
        "leave 1 1",
        "enter 1 shop sell 4294967296",
        "signal 1 ",
        "signal 4294967296",
        "advance 18446744073709551616",
        "stop 1 shop 4294967296 0 order",
        "stop 1 shop 7 18446744073709551616 order",
        "stop 1 shop 7 0 break 340282366920938463463374607431768211456",
        "stop 1 shop 7 0 ordered",
        "stop 1 shop 7 0 order 1",
        "trigger 1 shop 7 340282366920938463463374607431768211456 enable 1",
        "trigger 1 shop 7 1 enables 1",
        "trigger 1 shop 7 1 enable 2",
        "trigger 1 shop 7 1 enable 01",
        "skip 1 1",
        "kill 1 1",
        "expire 1 1",
        "served 9 il = rows 0",
    ];
    for line in table {
        assert!(rt; third(rt.alloc(), line)? == Reading::Refused(3));
    }
    Ok(())
}

#[test]
fn other_commands_are_refused(rt: HostRuntime) -> Result<(), Fail> {
    let table: [&'static str; 34] = [
        "start shop main [] = ok",
        "start shop main [] = quiet",
        "load shop 1 = ok",
        "load shop 0 = refused no_version",
        "load shop 1000 = refused no_version",
        "ib shop 0 = ok",
        "ib shop 1000000 = ok",
        "ib shop 07 = ok",
        "ib shop sell 256 = ok",
        "ib = ok",
        "ib Shop 7 = ok",
        "iba shop 7 stay = ok",
        "iaa = ok",
        "iaa init false = ok",
        "iaa false init = ok",
        "iaa init break exit init = ok",
        "ist some = ok",
        "ia 10000000 = ok",
        "ia $1 = ok",
        "ia <1> = ok",
        "await any gone = quiet",
        "await 1 = quiet",
        "skip 1 = ok",
        "kill 1 = ok",
        "timeout 1 = ok",
        "step 1 = refused not_waiting",
        "il",
        "il =",
        "il = rows 1",
        "il = rows 1 - -",
        "il = rows 01 -",
        "il =ok",
        "il  = ok",
        "il = ok ok",
    ];
    for command in table {
        let line = format!(in rt.alloc(); "served 1 {command}")?;
        assert!(rt; third(rt.alloc(), line.as_str())? == Reading::Refused(3));
    }
    Ok(())
}

#[test]
fn first_and_last_lines_are_judged(rt: HostRuntime) -> Result<(), Fail> {
    let table: [(&'static [u8], Reading); 10] = [
        (b"edb 1\n", Reading::Same),
        (b"edb 1\nlease 1 100\n", Reading::Same),
        (b"edb 1\nlease 1 100", Reading::Refused(2)),
        (b"edb 1\nlease 1 100\nx", Reading::Refused(3)),
        (b"edb 1\n\n", Reading::Refused(2)),
        (b"", Reading::Refused(1)),
        (b"edb 1", Reading::Refused(1)),
        (b"edb 2\n", Reading::Refused(1)),
        (b" edb 1\n", Reading::Refused(1)),
        (b"lease 1 100\n", Reading::Refused(1)),
    ];
    for (text, wanted) in table {
        assert!(rt; judged(rt.alloc(), text)? == wanted);
    }
    Ok(())
}

#[test]
fn the_line_that_passes_the_weight_is_refused(rt: HostRuntime) -> Result<(), Fail> {
    let table: [(&'static [u8], Reading); 6] = [
        (b"edb 1\nran 1 1007000 0\n", Reading::Same),
        (b"edb 1\nran 1 1007001 0\n", Reading::Refused(2)),
        (b"edb 1\nran 1 1 1007000\n", Reading::Refused(2)),
        (b"edb 1\nran 1 1006999 0\ntook 1\n", Reading::Same),
        (b"edb 1\nran 1 1007000 0\ntook 1\n", Reading::Refused(3)),
        (
            b"edb 1\ntook 1\ntook 1\nran 1 1006999 0\n",
            Reading::Refused(4),
        ),
    ];
    for (text, wanted) in table {
        assert!(rt; judged(rt.alloc(), text)? == wanted);
    }
    Ok(())
}

/// How the start with a list of one tuple reads that is nested so deep.
fn nested(alloc: Global, depth: u32) -> Result<Reading, AllocError> {
    let mut text = Vec::from_slice(alloc, b"edb 1\nstart 1 1 shop main [")?;
    for _ in 0..depth {
        text.push(b'{')?;
    }
    for _ in 0..depth {
        text.push(b'}')?;
    }
    text.extend_from_slice(b"]\n")?;
    judged(alloc, &text)
}

/// How the start with a list of one tuple of so many numbers and one more reads.
fn wide(alloc: Global, commas: u32) -> Result<Reading, AllocError> {
    let mut text = Vec::from_slice(alloc, b"edb 1\nstart 1 1 shop main [{")?;
    for _ in 0..commas {
        text.extend_from_slice(b"1,")?;
    }
    text.extend_from_slice(b"1}]\n")?;
    judged(alloc, &text)
}

#[test]
fn lists_are_at_most_so_high(rt: HostRuntime) -> Result<(), Fail> {
    assert!(rt; nested(rt.alloc(), 3_999)? == Reading::Same);
    assert!(rt; nested(rt.alloc(), 4_000)? == Reading::Refused(2));
    Ok(())
}

#[test]
fn lists_are_at_most_so_large(rt: HostRuntime) -> Result<(), Fail> {
    assert!(rt; wide(rt.alloc(), 99_996)? == Reading::Same);
    assert!(rt; wide(rt.alloc(), 99_997)? == Reading::Refused(2));
    assert!(rt; wide(rt.alloc(), 9_999_999)? == Reading::Refused(2));
    Ok(())
}
