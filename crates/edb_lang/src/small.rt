//! Small enums that several crates share.

use crate::Name;

/// An operator between two operands.
#[derive(Clone, Copy, PartialEq, Eq, Debug)]
pub enum Op {
    Add,
}

/// The class of an exception.
#[derive(Clone, Copy, PartialEq, Eq, Debug)]
pub enum Class {
    Error,
    Exit,
    Throw,
}

/// Whether a breakpoint stops a process that comes to it.
#[derive(Clone, Copy, PartialEq, Eq, Debug)]
pub enum Status {
    Active,
    Inactive,
}

/// What becomes of a breakpoint once a process has stopped at it.
#[derive(Clone, Copy, PartialEq, Eq, Debug)]
pub enum Action {
    Enable,
    Disable,
    Delete,
}

/// Which frames a stack listing shows: all with the gaps of tail calls, all without, or the innermost.
#[derive(Clone, Copy, PartialEq, Eq, Debug)]
pub enum TraceFlag {
    All,
    NoTail,
    Top,
}

/// A breakpoint, without its place: the condition is the module and name of a function that is asked
/// with the bindings, and the serial is never given twice.
#[derive(Drop)]
pub struct Break {
    pub status: Status,
    pub trigger: Action,
    pub cond: Option<(Name, Name)>,
    pub serial: u128,
}

/// A breakpoint at its place.
#[derive(Drop)]
pub struct BreakRow {
    pub module: Name,
    pub line: u32,
    pub row: Break,
}
