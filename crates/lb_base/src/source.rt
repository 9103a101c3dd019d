//! Bytes that come in. `specs/Causes.antt` states when a fault may be answered.

ghost use Rattle.std.specs.Prelude.{◌≡◌, ℕ, ◌≤◌, ◌<◌, List, length, Option, Some, IfOk, OnErr, IsErrOf};
ghost use Rattle.std.specs.Io.KnownBytes.{ReadConsumes, Consumes, IsAtEnd};
ghost use Rattle.lb_base.specs.Causes.{Rose};
ghost use Rattle.lb_base.specs.declared.source.ReadError.TheVariants as errors;

use std::alloc::{AllocError, Global};

/// The outside failed; the count of faults rose.
#[derive(Clone, Copy, Debug)]
pub struct Failed;

/// A source of bytes.
pub trait Source {
    /// The bytes that are left, where it tells.
    ghost left: { Self → Option (List ℕ) };

    /// How many faults there were.
    ghost faults: { Self → ℕ };

    /// Takes the next bytes into the front of `into`, and answers how many. 0 where there is room
    /// is the end of input. After `Failed` no byte is lost.
    fn take(&mut self, into: &mut [u8]) -> Result<usize, Failed>
        ensures within { IfOk result (λ n. n ≤ length into.new) }
        ensures bytes { ReadConsumes (left self.old) (left self.new) result into.new }
        ensures later { faults self.old ≤ faults self.new }
        ensures cause { OnErr result (Rose (faults self.old) (faults self.new)) };
}

/// Why an input was not read.
#[derive(Clone, Copy, Debug)]
pub enum ReadError {
    /// The source failed.
    Fault,
    /// The input is longer than the limit.
    TooLong,
    /// Memory ran out.
    Memory,
}

impl From<Failed> for ReadError {
    ghost from_gives = { λ _ e. e ≡ errors.Fault };

    fn from(_failed: Failed) -> ReadError {
        ReadError::Fault
    }
}

impl From<AllocError> for ReadError {
    ghost from_gives = { λ _ e. e ≡ errors.Memory };

    fn from(_want: AllocError) -> ReadError {
        ReadError::Memory
    }
}

/// How many bytes are asked for at once.
pub const AT_ONCE: usize = 65536;

/// Room for the bytes that are asked for at once, on the heap. The one error is running out of
/// memory.
pub fn piece_room(alloc: Global) -> Result<Vec<u8>, AllocError>
    ensures { IfOk result (λ room. length room.items ≡ AT_ONCE) }
{
    vec![in alloc; 0u8; AT_ONCE]
}

/// Reads the input to its end, where it has at most `limit` bytes.
///
/// Of a source that tells what is left, `Ok` has the whole input, and `TooLong` comes only where that
/// has more than `limit` bytes. `Fault` comes only where the source's count rose. The bytes that came
/// before an error are gone.
pub fn read_all<S: Source>(
    alloc: Global,
    limit: usize,
    source: &mut S,
) -> Result<Vec<u8>, ReadError>
    ensures whole { IfOk result (λ v. Consumes (S.left source.old) (S.left source.new) v.items × IsAtEnd (S.left source.new) × (length v.items ≤ limit)) }
    ensures told { IfOk result (λ v. (input : List ℕ) → S.left source.old ≡ Some input → input ≡ v.items) }
    ensures later { S.faults source.old ≤ S.faults source.new }
    ensures fault { IsErrOf result errors.Fault → Rose (S.faults source.old) (S.faults source.new) }
    ensures too_long { IsErrOf result errors.TooLong → (bytes : List ℕ) × Consumes (S.left source.old) (S.left source.new) bytes × (limit < length bytes) }
    ensures longer { IsErrOf result errors.TooLong → (input : List ℕ) → S.left source.old ≡ Some input → limit < length input }
{
    let mut piece = piece_room(alloc)?;
    let mut read = Vec::new(alloc);
    while read.len() <= limit {
        let taken = source.take(&mut piece)?;
        if taken == 0 {
            return Ok(read);
        }
        read.extend_from_slice(&piece[..taken])?;
    }
    Err(ReadError::TooLong)
}
