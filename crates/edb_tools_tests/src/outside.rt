//! What no clause of edb_io says: that calls succeed if memory is ample, and what the system does.

use edb_io::{
    CleanFiles, CleanSink, DiskFiles, Files, MemFiles, MemSink, ReadFault, Sink, SinkFault, StdSink,
};
use edb_lang::Bytes;
use std::alloc::Global;
use std::cell::Cell;
use std::fmt::Display;
use std::test::Fail;
use std::{fs, io};

/// What a read through the bound alone answers.
fn read_by<F: Files>(
    files: &mut F,
    alloc: Global,
    name: &str,
    most: u32,
) -> Result<Bytes, ReadFault> {
    files.read(alloc, name, most)
}

/// What a write through the bound alone answers.
fn write_by<S: Sink>(sink: &mut S, piece: &[u8]) -> Result<(), SinkFault> {
    sink.write(piece)
}

/// Whether a read answered these bytes, or this fault.
fn gave(answer: &Result<Bytes, ReadFault>, wanted: Result<&[u8], ReadFault>) -> bool {
    match (answer, wanted) {
        (Ok(bytes), Ok(wanted)) => bytes.as_slice() == wanted,
        (Err(fault), Err(wanted)) => *fault == wanted,
        _ => false,
    }
}

/// What a write answers that is to fail, or not.
fn failed_if(fails: bool) -> Result<(), SinkFault> {
    if fails {
        Err(SinkFault::Failed)
    } else {
        Ok(())
    }
}

#[test]
fn reads_the_disk(rt: HostRuntime) -> Result<(), Fail> {
    let alloc = rt.alloc();
    fs::write(&rt, "six", "abcdef")?;
    let long = vec![in alloc; b'x'; 5000]?;
    fs::write(&rt, "long", long.as_slice())?;
    let mut files = DiskFiles::new(rt, alloc);
    let whole = read_by(&mut files, alloc, "six", 10);
    assert!(rt; gave(&whole, Ok(b"abcdef")));
    let missing = read_by(&mut files, alloc, "none", 10);
    assert!(rt; gave(&missing, Err(ReadFault::Failed)));
    let start = read_by(&mut files, alloc, "six", 4);
    assert!(rt; gave(&start, Ok(b"abcd")));
    let pieces = read_by(&mut files, alloc, "long", 4500);
    assert!(rt; pieces.is_ok_and(|bytes| bytes.len() == 4500));
    fs::remove_file(&rt, "six")?;
    fs::remove_file(&rt, "long")?;
    Ok(())
}

/// A runtime that prints one byte a call, and nothing once its room is used up.
#[derive(Drop)]
struct Narrow {
    room: Cell<usize>,
}

impl Print for Narrow {
    fn print<D: Display + Drop>(&self, _value: D) -> io::Result<()> {
        Err(io::Error::from(io::ErrorKind::Unsupported))
    }

    fn println<D: Display + Drop>(&self, _value: D) -> io::Result<()> {
        Err(io::Error::from(io::ErrorKind::Unsupported))
    }

    fn write_all(&self, _bytes: &[u8]) -> io::Result<()> {
        Err(io::Error::from(io::ErrorKind::Unsupported))
    }

    fn write_some(&self, bytes: &[u8]) -> io::Result<usize> {
        let room = self.room.get();
        if room == 0 || bytes.is_empty() {
            return Ok(0);
        }
        self.room.set(room - 1);
        Ok(1)
    }
}

#[test]
fn writes_to_standard_output(rt: HostRuntime) {
    let mut sink = StdSink::new(rt);
    assert_eq!(rt; write_by(&mut sink, b"a line\n"), Ok(()));
    assert_eq!(rt; write_by(&mut sink, b""), Ok(()));
    let mut narrow = StdSink::new(Narrow { room: Cell::new(3) });
    assert_eq!(rt; write_by(&mut narrow, b"abc"), Ok(()));
    assert_eq!(rt; write_by(&mut narrow, b"d"), Err(SinkFault::Failed));
    assert_eq!(rt; write_by(&mut narrow, b""), Ok(()));
}

#[test]
fn fails_the_chosen_read(rt: HostRuntime) -> Result<(), Fail> {
    let alloc = rt.alloc();
    for failing in 1..4u32 {
        let mut files = MemFiles::new(alloc);
        files.add("a", b"old")?;
        files.add("b", b"xyz")?;
        files.add("a", b"abcdef")?;
        files.fail(failing)?;
        for call in 1..4u32 {
            let wanted: Result<&[u8], ReadFault> = if call == failing {
                Err(ReadFault::Failed)
            } else {
                Ok(b"abc")
            };
            let answer = read_by(&mut files, alloc, "a", 3);
            assert!(rt; gave(&answer, wanted), "read {call} with {failing} failing");
        }
        let whole = read_by(&mut files, alloc, "b", 9);
        assert!(rt; gave(&whole, Ok(b"xyz")));
        let missing = read_by(&mut files, alloc, "c", 9);
        assert!(rt; gave(&missing, Err(ReadFault::Failed)));
    }
    Ok(())
}

#[test]
fn fails_the_chosen_write(rt: HostRuntime) -> Result<(), Fail> {
    let table: [(u32, &[u8]); 3] = [(1, b"cdef"), (2, b"abef"), (3, b"abcd")];
    for (failing, written) in table {
        let mut sink = MemSink::new(rt.alloc());
        sink.fail(failing)?;
        let first = write_by(&mut sink, b"ab");
        let empty = write_by(&mut sink, b"");
        let second = write_by(&mut sink, b"cd");
        let third = write_by(&mut sink, b"ef");
        assert_eq!(rt; first, failed_if(failing == 1));
        assert_eq!(rt; empty, Ok(()));
        assert_eq!(rt; second, failed_if(failing == 2));
        assert_eq!(rt; third, failed_if(failing == 3));
        assert_eq!(rt; sink.written(), written, "with write {failing} failing");
    }
    Ok(())
}

#[test]
fn clean_ones_never_fail(rt: HostRuntime) -> Result<(), Fail> {
    let alloc = rt.alloc();
    let mut files = CleanFiles::new(alloc);
    files.add("a", b"old")?;
    files.add("a", b"abcdef")?;
    let start = read_by(&mut files, alloc, "a", 4);
    assert!(rt; gave(&start, Ok(b"abcd")));
    let missing = read_by(&mut files, alloc, "b", 4);
    assert!(rt; gave(&missing, Ok(b"")));
    let mut sink = CleanSink::new(alloc);
    assert_eq!(rt; write_by(&mut sink, b"ab"), Ok(()));
    assert_eq!(rt; write_by(&mut sink, b""), Ok(()));
    assert_eq!(rt; write_by(&mut sink, b"c"), Ok(()));
    assert_eq!(rt; sink.written(), b"abc".as_slice());
    Ok(())
}

/// Takes what can be sent to another thread.
fn needs_send<T: Send + Drop>(_sent: T) {}

#[test]
fn sinks_can_be_sent(rt: HostRuntime) {
    let alloc = rt.alloc();
    needs_send(MemSink::new(alloc));
    needs_send(CleanSink::new(alloc));
    needs_send(StdSink::new(rt));
}
