//! Why a tree does not answer: `Answers` in `specs/Reading.antt`.

ghost use Rattle.std.specs.Prelude.{◌≡◌};
ghost use Rattle.tree_reading.specs.declared.error.TreeError.TheVariants.{Refused, Memory};

use std::alloc::AllocError;
use xdr_codec::status::Status;

/// Why a call that takes memory is not answered.
#[derive(Clone, Copy)]
pub enum TreeError {
    /// By this status.
    Refused(Status),
    /// Memory ran out.
    Memory,
}

impl From<AllocError> for TreeError {
    ghost from_gives = { λ _ e. e ≡ Memory };

    fn from(_want: AllocError) -> TreeError {
        TreeError::Memory
    }
}

impl From<Status> for TreeError {
    ghost from_gives = { λ s e. e ≡ Refused s };

    fn from(status: Status) -> TreeError {
        TreeError::Refused(status)
    }
}
