//! Streams that are interrupted: the count of faults rises only where a stream doesn't come to itself.

ghost use Rattle.std.specs.Prelude.{◌≡◌, IfOk};

use lb_base::sink::{Sink, give_all};
use lb_base::source::Source;
use lb_base::streams::{StreamSink, StreamSource};
use row_text::out::Out;
use std::alloc::Global;
use std::io;
use std::io::{ErrorKind, Read, Write};

/// A stream that is interrupted so many times, and then takes and gives nothing.
#[derive(Drop)]
struct Idle {
    interrupts: u32,
}

impl Idle {
    fn answer(&mut self) -> io::Result<usize>
        ensures { IfOk result (λ n. n ≡ 0) }
    {
        if self.interrupts == 0 {
            return Ok(0);
        }
        self.interrupts -= 1;
        Err(io::Error::from(ErrorKind::Interrupted))
    }
}

impl Read for Idle {
    fn read(&mut self, _buf: &mut [u8]) -> io::Result<usize> {
        self.answer()
    }
}

impl Write for Idle {
    fn write(&mut self, _buf: &[u8]) -> io::Result<usize> {
        self.answer()
    }

    fn flush(&mut self) -> io::Result<()> {
        Ok(())
    }
}

/// What comes of a stream that is interrupted so many times, and takes and gives nothing: the answers, and the faults.
pub fn put_idle(interrupts: u32, out: &mut Out) {
    let mut room = [0u8; 4];
    let mut source = StreamSource::new(Idle { interrupts });
    let mut sink = StreamSink::new(Idle { interrupts });
    out.value(&source.take(&mut room));
    out.text(" ");
    out.value(&give_all(&mut sink, b"x"));
    out.say(
        " interrupted",
        &[interrupts as u64, source.faults(), sink.faults()],
    );
    out.line("")
}

/// What comes of giving to a stream in memory.
pub fn put_memory(alloc: Global, out: &mut Out) {
    let mut sink = StreamSink::new(Vec::new(alloc));
    out.value(&sink.give(b"hello"));
    out.say(" faults", &[sink.faults()]);
    out.line("")
}
