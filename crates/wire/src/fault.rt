//! Why a record is no message, and where. `parse_of` of `specs/Parse.antt` says which fault it is.

ghost use Rattle.std.specs.Prelude.{◌≡◌};
ghost use Rattle.wire.specs.Parse.{fault_at, not_rpc, garbage};

use xdr_codec::fault::{Fault, ReadError};

/// What is wrong with a record.
#[derive(Clone, Copy, Debug, Drop)]
pub enum WireFault {
    /// No RPC message: too short for an xid and a direction, another direction than 0 and 1, or a
    /// call whose header ends early or has an authentication item outside its grammar (above
    /// `AUTH_MOST` bytes, or with fill that isn't zero). The item that failed begins `at` bytes
    /// behind the record's first; for an opaque that is its length.
    NotRpc { at: usize },
    /// An answer to a call that doesn't wait, whatever else is wrong with it.
    UnknownXid { xid: u32 },
    /// An answer to a call that waits, whose header or result is outside its grammar or doesn't
    /// fill the record. The item that failed begins `at` bytes behind the record's first.
    Garbage { at: usize },
}

/// Why no message was read.
#[derive(Clone, Copy, Drop)]
pub enum WireError {
    /// Memory ran out; the record may be a message.
    Memory,
    /// The record is no message, for this fault.
    Fault(WireFault),
}

/// Where the item begins that could not be read, counted from the record's first byte.
pub fn place(fault: Fault) -> usize
    ensures { result ≡ fault_at fault }
{
    match fault {
        Fault::Short { at }
        | Fault::BadBool { at, .. }
        | Fault::BadFill { at }
        | Fault::TooLong { at, .. }
        | Fault::Trailing { at }
        | Fault::BadValue { at, .. } => at,
    }
}

/// A header that could not be read.
pub fn not_rpc(error: ReadError) -> WireError
    ensures { result ≡ not_rpc error }
{
    match error {
        ReadError::Memory => WireError::Memory,
        ReadError::Fault(fault) => WireError::Fault(WireFault::NotRpc { at: place(fault) }),
    }
}

/// An answer that could not be read.
pub fn garbage(error: ReadError) -> WireError
    ensures { result ≡ garbage error }
{
    match error {
        ReadError::Memory => WireError::Memory,
        ReadError::Fault(fault) => WireError::Fault(WireFault::Garbage { at: place(fault) }),
    }
}
