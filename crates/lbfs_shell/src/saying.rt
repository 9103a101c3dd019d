//! What a shell writes, and what it says beside that.

ghost use Rattle.std.specs.Prelude.{◌≡◌, ◌≤◌, IfErr, IfOk, OnOk, OnErr};
ghost use Rattle.shell_walks.specs.Telling.{is_fine};
ghost use Rattle.std.specs.Io.KnownBytes.{Appends};
ghost use Rattle.lb_base.specs.Known.{AppendsPart};
ghost use Rattle.lbfs_shell.specs.Ends.{SinkCause, flow_of, given_end, read_end};

use exit_status::shell_end::ShellEnd;
use lb_base::sink::{GiveError, Sink, give_all};
use lb_base::source::ReadError;
use shell_walks::screen::Screen;
use shell_walks::told::Told;

/// Whether what a line asked for was done.
#[derive(Clone, Copy)]
pub(crate) enum Flow {
    /// It was done.
    Done,
    /// It wasn't, and why was said.
    Undone,
    /// Nor was it, and the lines behind it would be done where they aren't meant: none of them is begun.
    Astray,
    /// The shell is to end.
    Bye,
}

/// The end of a shell whose input wasn't read.
pub(crate) fn read_end(why: ReadError) -> ShellEnd
    ensures { result ≡ read_end why }
{
    match why {
        ReadError::Fault => ShellEnd::ReadFault,
        ReadError::TooLong => ShellEnd::TooLong,
        ReadError::Memory => ShellEnd::Memory,
    }
}

/// The end of a shell whose output wasn't written.
fn given_end(why: GiveError) -> ShellEnd
    ensures { result ≡ given_end why }
{
    match why {
        GiveError::Failed => ShellEnd::WriteFault,
        GiveError::Memory => ShellEnd::Memory,
    }
}

/// Writes bytes.
pub(crate) fn write<K: Sink>(sink: &mut K, text: &[u8]) -> Result<(), ShellEnd>
    ensures whole { OnOk result (Appends (K.held sink.old) (K.held sink.new) text.now) }
    ensures part { OnErr result (AppendsPart (K.held sink.old) (K.held sink.new) text.now) }
    ensures cause { IfErr result (λ e. SinkCause (K.faults sink.old) (K.faults sink.new) e) }
    ensures later { K.faults sink.old ≤ K.faults sink.new }
{
    match give_all(sink, text) {
        Ok(()) => Ok(()),
        Err(why) => Err(given_end(why)),
    }
}

/// Says what a line came to beside what it wrote, and answers whether it was done.
fn say_rest<P: Screen>(screen: &P, told: &Told) -> Flow
    ensures { result ≡ flow_of (is_fine told.now) }
{
    if told.is_fine() {
        return Flow::Done;
    }
    screen.say(told.note.as_slice());
    Flow::Undone
}

/// Writes and says what a line came to.
pub(crate) fn tell<P: Screen, K: Sink>(
    screen: &P,
    sink: &mut K,
    told: &Told,
) -> Result<Flow, ShellEnd>
    ensures whole { OnOk result (Appends (K.held sink.old) (K.held sink.new) told.now.text) }
    ensures part { OnErr result (AppendsPart (K.held sink.old) (K.held sink.new) told.now.text) }
    ensures flow { IfOk result (λ f. f ≡ flow_of (is_fine told.now)) }
    ensures cause { IfErr result (λ e. SinkCause (K.faults sink.old) (K.faults sink.new) e) }
    ensures later { K.faults sink.old ≤ K.faults sink.new }
{
    match write(sink, told.text.as_slice()) {
        Ok(()) => Ok(say_rest(screen, told)),
        Err(end) => Err(end),
    }
}
