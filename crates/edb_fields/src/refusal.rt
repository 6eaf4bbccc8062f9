//! Why nothing was read.

ghost use Rattle.std.specs.Prelude.{◌≡◌};
ghost use Rattle.edb_fields.specs.declared.refusal.ReadError.TheVariants.{Memory};

use std::alloc::{AllocError, AllocFailed};

/// Why nothing was read.
#[derive(Clone, Copy, Debug, PartialEq, Eq, Drop)]
pub enum ReadError {
    /// Out of memory.
    Memory,
    /// The bytes don't begin so: with no such field, text, space or newline.
    Refused,
}

impl From<AllocError> for ReadError {
    ghost from_gives = { λ _ r. r ≡ Memory };

    fn from(_error: AllocError) -> ReadError {
        ReadError::Memory
    }
}

impl<T: Drop> From<AllocFailed<T>> for ReadError {
    ghost from_gives = { λ _ r. r ≡ Memory };

    fn from(_error: AllocFailed<T>) -> ReadError {
        ReadError::Memory
    }
}
