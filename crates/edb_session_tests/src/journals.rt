//! The kinds of a journal's entries.

use crate::tests::{SHOP, STOP, run};
use edb_event::{Call, Entry};
use std::alloc::{AllocError, Global};
use std::test::Fail;

/// The kind of an entry, with the budget of a lease and the moves of a slice.
#[derive(Clone, Copy, PartialEq, Eq, Debug)]
enum Kind {
    Start,
    Lease(u32),
    Ran(u32),
    Did,
    Leave,
    Enter,
    Stop,
    Trigger,
    Ii,
    Ib,
    Await,
    Ia,
    Bindings,
    Continue,
    Other,
}

/// The kind of a call.
fn kind_of_call(call: &Call) -> Kind {
    match call {
        Call::Ii { .. } => Kind::Ii,
        Call::Ib { .. } => Kind::Ib,
        Call::Await { .. } => Kind::Await,
        Call::Ia { .. } => Kind::Ia,
        Call::Bindings { .. } => Kind::Bindings,
        Call::Continue { .. } => Kind::Continue,
        _ => Kind::Other,
    }
}

/// The kind of an entry.
fn kind_of(entry: &Entry) -> Kind {
    match entry {
        Entry::Start { .. } => Kind::Start,
        Entry::Lease { budget, .. } => Kind::Lease(*budget),
        Entry::Ran { moves, .. } => Kind::Ran(*moves),
        Entry::Did { .. } => Kind::Did,
        Entry::Leave { .. } => Kind::Leave,
        Entry::Enter { .. } => Kind::Enter,
        Entry::Stop { .. } => Kind::Stop,
        Entry::Trigger { .. } => Kind::Trigger,
        Entry::Served { call, .. } => kind_of_call(call),
        _ => Kind::Other,
    }
}

/// The entries of a session that stops at a breakpoint, one by one.
const STOPPED: [Kind; 21] = [
    Kind::Ii,
    Kind::Ib,
    Kind::Start,
    Kind::Lease(100),
    Kind::Ran(1),
    Kind::Enter,
    Kind::Lease(100),
    Kind::Ran(2),
    Kind::Stop,
    Kind::Trigger,
    Kind::Await,
    Kind::Ia,
    Kind::Bindings,
    Kind::Continue,
    Kind::Lease(100),
    Kind::Ran(13),
    Kind::Did,
    Kind::Lease(100),
    Kind::Ran(1),
    Kind::Leave,
    Kind::Did,
];

/// Whether entries are of these kinds, one by one.
fn have_kinds(entries: &[Entry], kinds: &[Kind]) -> bool {
    for (place, entry) in entries.iter().enumerate() {
        match kinds.get(place) {
            Some(wanted) if kind_of(entry) == *wanted => {}
            _ => return false,
        }
    }
    entries.len() == kinds.len()
}

/// Whether the session with this script and the shop leaves entries of these kinds.
fn leaves(alloc: Global, script: &str, kinds: &[Kind]) -> Result<bool, AllocError> {
    let (ending, _sink) = run(alloc, script.as_bytes(), SHOP.as_bytes(), 0, 0)?;
    Ok(have_kinds(ending.journal.entries(), kinds))
}

#[test]
fn journals_have_these_kinds(rt: HostRuntime) -> Result<(), Fail> {
    assert!(rt; leaves(rt.alloc(), STOP, &STOPPED)?);
    Ok(())
}
