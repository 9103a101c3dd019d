//! Bytes that go out. `specs/Causes.antt` states when a fault may be answered, and `specs/Known.antt`
//! what is known of bytes that were given over several calls.

ghost use Rattle.std.specs.Prelude.{◌≡◌, ℕ, ◌≤◌, ◌<◌, List, length, Option, IfOk, OnOk, OnErr, IsErrOf};
ghost use Rattle.std.specs.Io.KnownBytes.{WriteAppends, Appends};
ghost use Rattle.lb_base.specs.Causes.{Rose};
ghost use Rattle.lb_base.specs.Known.{AppendsPart};
ghost use Rattle.lb_base.specs.declared.sink.GiveError.TheVariants as errors;

use crate::source::Failed;
use std::alloc::AllocError;

/// Why a sink did not take bytes.
#[derive(Clone, Copy, Debug)]
pub enum GiveError {
    /// The outside failed; the count of faults rose.
    Failed,
    /// Memory ran out; nothing was taken.
    Memory,
}

impl From<Failed> for GiveError {
    ghost from_gives = { λ _ e. e ≡ errors.Failed };

    fn from(_failed: Failed) -> GiveError {
        GiveError::Failed
    }
}

impl From<AllocError> for GiveError {
    ghost from_gives = { λ _ e. e ≡ errors.Memory };

    fn from(_want: AllocError) -> GiveError {
        GiveError::Memory
    }
}

/// A sink of bytes.
pub trait Sink {
    /// What it was given, where it tells.
    ghost held: { Self → Option (List ℕ) };

    /// How many faults there were.
    ghost faults: { Self → ℕ };

    /// Gives the bytes at the front of `from`, and answers how many it took: at least one where
    /// there is one. After an `Err` nothing was taken.
    fn give(&mut self, from: &[u8]) -> Result<usize, GiveError>
        ensures within { IfOk result (λ n. n ≤ length from.now) }
        ensures some { IfOk result (λ n. 0 < length from.now → 0 < n) }
        ensures bytes { WriteAppends (held self.old) (held self.new) result from.now }
        ensures later { faults self.old ≤ faults self.new }
        ensures cause { IsErrOf result errors.Failed → Rose (faults self.old) (faults self.new) };
}

/// Gives the bytes in as many calls as it takes. Of a sink that tells what it was given, `Ok` says
/// that all of them were, in order, and `Err` that a front of them was, and not all. `Failed` comes
/// only where the sink's count rose.
pub fn give_all<K: Sink>(sink: &mut K, bytes: &[u8]) -> Result<(), GiveError>
    ensures ok { OnOk result (Appends (K.held sink.old) (K.held sink.new) bytes.now) }
    ensures err { OnErr result (AppendsPart (K.held sink.old) (K.held sink.new) bytes.now) }
    ensures later { K.faults sink.old ≤ K.faults sink.new }
    ensures fault { IsErrOf result errors.Failed → Rose (K.faults sink.old) (K.faults sink.new) }
{
    let mut given = 0;
    while given < bytes.len() {
        let more = sink.give(&bytes[given..])?;
        given += more;
    }
    Ok(())
}
