//! Why a line was not read: what `Gives` of `specs/Reading.antt` says of a reader's answer.

ghost use Rattle.std.specs.Prelude.{◌≡◌};
ghost use Rattle.command_text.specs.declared.line_error.LineError.TheVariants as errors;

use std::alloc::{AllocError, AllocFailed};

/// Why a line was not read.
#[derive(Clone, Copy, Drop)]
pub enum LineError {
    /// It is not in the grammar.
    BadLine,
    /// Memory ran out.
    Memory,
}

impl From<AllocError> for LineError {
    ghost from_gives = { λ _ e. e ≡ errors.Memory };

    fn from(_e: AllocError) -> LineError {
        LineError::Memory
    }
}

impl<T: Drop> From<AllocFailed<T>> for LineError {
    ghost from_gives = { λ _ e. e ≡ errors.Memory };

    fn from(_e: AllocFailed<T>) -> LineError {
        LineError::Memory
    }
}
