//! Modes.

ghost use Rattle.std.specs.Prelude.{◌≡◌, ◌&&◌, not};
ghost use Rattle.edb_frames.specs.Modes.{asks};

/// How a process goes on. A level is that of the call in which the order was given; the first call of a process has level 1.
#[derive(Clone, Copy, PartialEq, Eq, Debug)]
pub enum Mode {
    /// Up to a breakpoint.
    Run,
    /// To the next expression.
    Step,
    /// To the next expression of a call of at most this level.
    Next(u64),
    /// To the next expression of a call below this level.
    Finish(u64),
}

/// Whether a mode stops a process that is about to begin an expression in a call of this level. A process that was just
/// resumed at this very expression doesn't stop there again.
pub fn due(mode: Mode, level: u64, resumed: bool) -> bool
    ensures { result ≡ asks mode level && not resumed }
{
    !resumed
        && match mode {
            Mode::Run => false,
            Mode::Step => true,
            Mode::Next(own) => level <= own,
            Mode::Finish(own) => level < own,
        }
}
