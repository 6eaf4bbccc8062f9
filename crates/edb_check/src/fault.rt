//! Faults of a module.

ghost use Rattle.std.specs.Prelude.{◌≡◌};
ghost use Rattle.edb_check.specs.Faults as faults;
ghost use Rattle.edb_check.specs.Walking.{before, better as better_of};

/// A fault: the line that it stands on, and its kind.
#[derive(Clone, Copy, PartialEq, Eq, Debug)]
pub struct CheckFault {
    pub line: u32,
    pub kind: CheckKind,
}

/// What is wrong. Of two faults on one line the one whose kind stands earlier here is reported.
#[derive(Clone, Copy, PartialEq, Eq, Debug)]
pub enum CheckKind {
    /// A variable is used that nothing before it binds.
    Unbound,
    /// A variable is used or matched that is bound on some ways to it alone.
    Unsafe,
    /// Two operands of one node share a variable that one of them binds.
    Sibling,
    /// A number with a fraction, or the operator `/`.
    Float,
    /// A call of no function, or a fun that names none.
    Undefined,
    /// A function defined twice, or a module with the name of one that has built-ins.
    Duplicate,
    /// An export of a function that the module doesn't define.
    NotExported,
    /// A guard with something that may not stand there.
    BadGuard,
}

impl CheckKind {
    // The place of the kind in the order of kinds.
    fn rank(self) -> u8
        ensures { result ≡ faults.rank self }
    {
        match self {
            CheckKind::Unbound => 0,
            CheckKind::Unsafe => 1,
            CheckKind::Sibling => 2,
            CheckKind::Float => 3,
            CheckKind::Undefined => 4,
            CheckKind::Duplicate => 5,
            CheckKind::NotExported => 6,
            CheckKind::BadGuard => 7,
        }
    }
}

impl CheckFault {
    // Whether the fault comes before another.
    fn is_before(self, other: CheckFault) -> bool
        ensures { result ≡ before self other }
    {
        self.line < other.line || (self.line == other.line && self.kind.rank() < other.kind.rank())
    }
}

/// The first fault so far, after one more.
pub(crate) fn better(first: Option<CheckFault>, fault: CheckFault) -> Option<CheckFault>
    ensures { result ≡ better_of first fault }
{
    match first {
        None => Some(fault),
        Some(other) => {
            if fault.is_before(other) {
                Some(fault)
            } else {
                Some(other)
            }
        }
    }
}
