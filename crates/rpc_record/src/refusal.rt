//! Why bytes are no record, and why a record is not sent. `specs/Spoilt.antt` states when a stream
//! is spoilt, `specs/Refused.antt` why a header is refused.

ghost use Rattle.std.specs.Prelude.{◌≡◌};
ghost use Rattle.rpc_record.specs.declared.refusal.MarkError.TheVariants.{Memory};
ghost use Rattle.rpc_record.specs.Messages.{told};

use std::alloc::AllocError;
use xdr_codec::fault::{Fault, ReadError};

/// Why a stream is spoilt: a header that no record may have.
#[derive(Clone, Copy, Debug, Drop)]
pub enum Refusal {
    /// The headers of a record promise so many bytes, which are more than `RECORD_MOST`.
    TooBig {
        /// How many the headers promise, with the one that passes the limit.
        len: usize,
    },
    /// A record has more than `FRAGMENTS_MOST` fragments, and the header of the first that is too many
    /// doesn't promise too many bytes as well.
    TooManyFragments,
}

/// Why a record was not marked.
#[derive(Clone, Copy, Debug, Drop)]
pub enum MarkError {
    /// It has so many bytes, which are more than `RECORD_MOST`.
    TooBig {
        /// How many it has.
        len: usize,
    },
    /// Memory ran out.
    Memory,
}

impl From<AllocError> for MarkError {
    ghost from_gives = { λ _ e. e ≡ Memory };

    fn from(_e: AllocError) -> MarkError {
        MarkError::Memory
    }
}

/// Why a record does not begin with the header that was asked for.
#[derive(Clone, Copy, Drop)]
pub enum HeaderError {
    /// An item of the header could not be read, or is the type of the other header.
    Xdr(Fault),
    /// The message's type is this number, which is neither a call's nor a reply's.
    BadType {
        /// The number that stands there.
        value: u32,
    },
    /// Memory ran out.
    Memory,
}

impl From<ReadError> for HeaderError {
    ghost from_gives = { λ e told_of. told_of ≡ told e };

    fn from(error: ReadError) -> HeaderError {
        match error {
            ReadError::Memory => HeaderError::Memory,
            ReadError::Fault(fault) => HeaderError::Xdr(fault),
        }
    }
}
