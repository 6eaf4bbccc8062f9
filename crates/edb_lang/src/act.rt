//! The kinds of shared acts.

/// What a process does to others or to the world. All else that it does is pure moves.
#[derive(Clone, Copy, PartialEq, Eq, Debug)]
pub enum ActKind {
    Send,
    Receive,
    Wait,
    Timeout,
    Spawn,
    Link,
    Unlink,
    Monitor,
    Demonitor,
    Exit,
    Register,
    Unregister,
    Whereis,
    Trap,
    Alive,
    MakeRef,
    Print,
    End,
}
