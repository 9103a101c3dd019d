//! Sources and sinks over a reader and a writer of the standard library, as standard input and
//! standard output. They tell of bytes what the reader and the writer tell: of the standard streams
//! nothing. `specs/Causes.antt` states when a fault may be answered.

ghost use Rattle.std.specs.Prelude.{◌≡◌, ℕ, ◌+◌, ◌-◌, ◌^◌, ◌≤◌, ◌<◌, length, min, IfOk, OnOk, OnErr, IsErrOf};
ghost use Rattle.std.specs.Io.KnownBytes.{ReadConsumes, WriteAppends};
ghost use Rattle.lb_base.specs.Causes.{Rose};
ghost use Rattle.lb_base.specs.declared.sink.GiveError.TheVariants as errors;

use crate::faults::one_more;
use crate::sink::{GiveError, Sink};
use crate::source::{Failed, Source};
use std::io::{ErrorKind, Read, Write};

/// How many times in all a call is tried that is interrupted, before that counts as a fault.
const RETRIES: u32 = 16;

/// A source over a reader, as `StreamSource::new(rt.stdin())`.
#[derive(Drop)]
pub struct StreamSource<R> {
    input: R,
    faults: u64,
}

impl<R> StreamSource<R> {
    /// A source with no fault so far.
    pub fn new(input: R) -> StreamSource<R>
        ensures { result ≡ record { input = input; faults = 0 } }
    {
        StreamSource { input, faults: 0 }
    }

    /// How many faults there were; it stands still at its type's end.
    pub fn faults(&self) -> u64
        ensures { result ≡ self.now.faults }
    {
        self.faults
    }
}

impl<R: Read> Source for StreamSource<R> {
    ghost left = { λ s. R.remaining s.input };

    ghost faults = { λ s. s.faults };

    fn take(&mut self, into: &mut [u8]) -> Result<usize, Failed>
        ensures within { IfOk result (λ n. n ≤ length into.new) }
        ensures bytes { ReadConsumes (R.remaining self.old.input) (R.remaining self.new.input) result into.new }
        ensures later { self.old.faults ≤ self.new.faults }
        ensures cause { OnErr result (Rose self.old.faults self.new.faults) }
        ensures counted { OnErr result (self.new.faults ≡ min (self.old.faults + 1) (2 ^ 64 - 1)) }
        ensures still { OnOk result (self.new.faults ≡ self.old.faults) }
    {
        for _ in 0..RETRIES {
            match self.input.read(into) {
                Ok(count) => return Ok(count),
                Err(error) if error.kind() == ErrorKind::Interrupted => {}
                Err(_) => break,
            }
        }
        self.faults = one_more(self.faults);
        Err(Failed)
    }
}

/// A sink over a writer, as `StreamSink::new(rt.stdout())`. A write that takes nothing of some
/// bytes is a fault.
#[derive(Drop)]
pub struct StreamSink<W> {
    output: W,
    faults: u64,
}

impl<W> StreamSink<W> {
    /// A sink with no fault so far.
    pub fn new(output: W) -> StreamSink<W>
        ensures { result ≡ record { output = output; faults = 0 } }
    {
        StreamSink { output, faults: 0 }
    }

    /// How many faults there were; it stands still at its type's end.
    pub fn faults(&self) -> u64
        ensures { result ≡ self.now.faults }
    {
        self.faults
    }
}

impl<W: Write> Sink for StreamSink<W> {
    ghost held = { λ s. W.contents s.output };

    ghost faults = { λ s. s.faults };

    fn give(&mut self, from: &[u8]) -> Result<usize, GiveError>
        ensures within { IfOk result (λ n. n ≤ length from.now) }
        ensures some { IfOk result (λ n. 0 < length from.now → 0 < n) }
        ensures bytes { WriteAppends (W.contents self.old.output) (W.contents self.new.output) result from.now }
        ensures later { self.old.faults ≤ self.new.faults }
        ensures cause { IsErrOf result errors.Failed → Rose self.old.faults self.new.faults }
        ensures only { OnErr result (IsErrOf result errors.Failed) }
        ensures counted { OnErr result (self.new.faults ≡ min (self.old.faults + 1) (2 ^ 64 - 1)) }
        ensures still { OnOk result (self.new.faults ≡ self.old.faults) }
    {
        for _ in 0..RETRIES {
            match self.output.write(from) {
                Ok(0) if !from.is_empty() => break,
                Ok(count) => return Ok(count),
                Err(error) if error.kind() == ErrorKind::Interrupted => {}
                Err(_) => break,
            }
        }
        self.faults = one_more(self.faults);
        Err(GiveError::Failed)
    }
}
