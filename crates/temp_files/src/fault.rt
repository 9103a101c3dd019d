//! Why a call on the temporary files is refused. `status_of` in `specs/Temps.antt` says which status
//! stands for it.

ghost use Rattle.std.specs.Prelude.{◌≡◌};
ghost use Rattle.temp_files.specs.declared.fault.TempError.TheVariants as refusal;

use std::alloc::{AllocError, AllocFailed};
use xdr_codec::status::Status;

/// Why a call is refused.
#[derive(Clone, Copy)]
pub enum TempError {
    /// The session has a temporary file under this number.
    FdInUse,
    /// The session has no temporary file under this number.
    BadFd,
    /// The session has sixteen temporary files.
    TooManyTemps,
    /// The piece is empty, meets another, or ends beyond 2 ^ 64 - 1.
    Inval,
    /// The piece ends, or the content that is asked for is, beyond 67,108,864 bytes.
    FBig,
    /// Memory ran out.
    Memory,
}

impl TempError {
    ghost use Rattle.temp_files.specs.Temps.{status_of};

    /// The status that the refusal is answered with; running out of memory has none.
    pub fn status(self) -> Option<Status>
        ensures { result ≡ status_of self }
    {
        match self {
            TempError::FdInUse => Some(Status::FdInUse),
            TempError::BadFd => Some(Status::BadFd),
            TempError::TooManyTemps => Some(Status::TooManyTemps),
            TempError::Inval => Some(Status::Inval),
            TempError::FBig => Some(Status::FBig),
            TempError::Memory => None,
        }
    }
}

impl From<AllocError> for TempError {
    ghost from_gives = { λ _ e. e ≡ refusal.Memory };

    fn from(_error: AllocError) -> TempError {
        TempError::Memory
    }
}

impl<T: Drop> From<AllocFailed<T>> for TempError {
    ghost from_gives = { λ _ e. e ≡ refusal.Memory };

    fn from(_error: AllocFailed<T>) -> TempError {
        TempError::Memory
    }
}
