//! Why a text isn't whole.

ghost use Rattle.std.specs.Prelude.{◌≡◌};
ghost use Rattle.edb_format.specs.declared.unwritten.Unwritten.TheVariants.{Memory};

use std::alloc::{AllocError, AllocFailed};

/// Why a text isn't whole.
#[derive(Clone, Copy, Debug, PartialEq, Eq, Drop)]
pub enum Unwritten {
    /// There is no memory for it.
    Memory,
    /// There is no such text.
    Refused,
}

impl From<AllocError> for Unwritten {
    ghost from_gives = { λ _ r. r ≡ Memory };

    fn from(_error: AllocError) -> Unwritten {
        Unwritten::Memory
    }
}

impl<T: Drop> From<AllocFailed<T>> for Unwritten {
    ghost from_gives = { λ _ r. r ≡ Memory };

    fn from(_error: AllocFailed<T>) -> Unwritten {
        Unwritten::Memory
    }
}
