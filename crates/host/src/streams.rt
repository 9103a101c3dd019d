//! Readers and writers that tell on standard error why they failed, and are in all else what they stand
//! over: for the standard streams.

ghost use Rattle.std.specs.Prelude.{◌≡◌};

use crate::notes::{StreamNote, tell};
use std::io;
use std::io::{ErrorKind, Read, Write};

/// A reader that tells why it failed.
#[derive(Drop)]
pub struct ToldReader<R, I> {
    rt: R,
    input: I,
}

impl<R, I> ToldReader<R, I> {
    /// This reader, which tells by that runtime.
    pub fn new(rt: R, input: I) -> ToldReader<R, I>
        ensures { result ≡ record { rt = rt; input = input } }
    {
        ToldReader { rt, input }
    }
}

impl<R: Eprint, I: Read> Read for ToldReader<R, I> {
    ghost remaining = { λ r. I.remaining r.input };

    fn read(&mut self, buf: &mut [u8]) -> io::Result<usize> {
        match self.input.read(buf) {
            Err(why) if why.kind() != ErrorKind::Interrupted => {
                tell(&self.rt, &StreamNote::Input(why));
                Err(why)
            }
            other => other,
        }
    }
}

/// A writer that tells why it failed.
#[derive(Drop)]
pub struct ToldWriter<R, O> {
    rt: R,
    output: O,
}

impl<R, O> ToldWriter<R, O> {
    /// This writer, which tells by that runtime.
    pub fn new(rt: R, output: O) -> ToldWriter<R, O>
        ensures { result ≡ record { rt = rt; output = output } }
    {
        ToldWriter { rt, output }
    }
}

impl<R: Eprint, O: Write> Write for ToldWriter<R, O> {
    ghost contents = { λ w. O.contents w.output };

    fn write(&mut self, buf: &[u8]) -> io::Result<usize> {
        match self.output.write(buf) {
            Err(why) if why.kind() != ErrorKind::Interrupted => {
                tell(&self.rt, &StreamNote::Output(why));
                Err(why)
            }
            other => other,
        }
    }

    fn flush(&mut self) -> io::Result<()> {
        self.output.flush()
    }
}
