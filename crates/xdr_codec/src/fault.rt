//! Why a record could not be read. A place is a number of bytes from the record's first byte to
//! where the item begins that failed. Which fault it is states the item's form: `specs/Xdr.antt`,
//! and for what is made of items `specs/Format.antt`.

ghost use Rattle.std.specs.Prelude.{◌≡◌};
ghost use Rattle.xdr_codec.specs.declared.fault.ReadError.TheVariants.{Memory};

use std::alloc::{AllocError, AllocFailed};

/// What is wrong with the bytes: the first fault from left to right, with its place.
#[derive(Clone, Copy, Debug, Drop)]
pub enum Fault {
    /// An item passes the end.
    Short {
        /// Where it begins.
        at: usize,
    },
    /// A truth value is neither 0 nor 1 (RFC 4506, section 4.4).
    BadBool {
        /// Where it begins.
        at: usize,
        /// The number that stands there.
        value: u32,
    },
    /// Fill is not zero (RFC 4506, section 3).
    BadFill {
        /// Where the bytes begin that it fills up; of an opaque, where its length does.
        at: usize,
    },
    /// A length is above its maximum (RFC 4506, sections 4.10 and 4.13).
    TooLong {
        /// Where the length begins.
        at: usize,
        /// The length, in bytes of an opaque, and in items of a list.
        len: u32,
        /// The maximum, in the same unit.
        max: u32,
    },
    /// Bytes stand after the last item.
    Trailing {
        /// Where they begin.
        at: usize,
    },
    /// A number stands for nothing (RFC 4506, sections 4.3 and 4.15).
    BadValue {
        /// Where it begins.
        at: usize,
        /// The number.
        value: u32,
    },
}

/// Why nothing was read.
#[derive(Clone, Copy, Drop)]
pub enum ReadError {
    /// Memory ran out.
    Memory,
    /// The bytes are not a spelling, for this fault.
    Fault(Fault),
}

impl From<AllocError> for ReadError {
    ghost from_gives = { λ _ e. e ≡ Memory };

    fn from(_e: AllocError) -> ReadError {
        ReadError::Memory
    }
}

impl<T: Drop> From<AllocFailed<T>> for ReadError {
    ghost from_gives = { λ _ e. e ≡ Memory };

    fn from(_e: AllocFailed<T>) -> ReadError {
        ReadError::Memory
    }
}
