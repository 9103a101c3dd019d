//! The lines of a script, one by one: each is read, runs to its end, and is told before the next one
//! is read. `specs/Mounts.antt` says what is written for them, `Heard.antt` that they ran.

ghost use Rattle.std.specs.Prelude.{◌≡◌, ◌≤◌, IfErr, IfOk};
ghost use Rattle.lbfs_client.specs.Lines.{line_of};
ghost use Rattle.mount_desk.specs.Turns.{IsAnswer};
ghost use Rattle.lbfs_mount.specs.Heard.{Ran, SaysRun};
ghost use Rattle.lbfs_mount.specs.Mounts.{AnswerEnds, Ends, IsFaulty, TextEnds, Unjoined, WriteEnds, read_end, written_as};

use crate::connecting::{Dialler, connect};
use crate::mount_error::MountError;
use crate::script::Script;
use command_text::line_error::LineError;
use cut_bytes::CutBytes;
use lb_base::sink::{GiveError, Sink, give_all};
use lb_base::source::{ReadError, Source};
use lbfs_client::line::{MountLine, is_skipped};
use links::clock::Clock;
use links::network::Network;
use mount_desk::answer_line::AnswerLine;
use mount_desk::shared::ScriptTurns;
use mount_desk::turns::Turns;
use shared_bytes::SharedBytes;
use std::sync::Wait;
use std::thread::{Scope, Threads};

/// What came of writing.
fn written_as(given: Result<(), GiveError>) -> Result<(), MountError>
    ensures { result ≡ written_as given }
{
    match given {
        Ok(()) => Ok(()),
        Err(GiveError::Failed) => Err(MountError::WriteFault),
        Err(GiveError::Memory) => Err(MountError::Memory),
    }
}

/// The end of a mount whose script wasn't read.
fn read_end(why: ReadError) -> MountError
    ensures { result ≡ read_end why }
{
    match why {
        ReadError::Fault => MountError::ReadFault,
        ReadError::TooLong => MountError::TooLong,
        ReadError::Memory => MountError::Memory,
    }
}

/// Writes the line of what ended.
pub(crate) fn write_answer<K: Sink>(sink: &mut K, answer: &AnswerLine) -> Result<(), MountError>
    ensures ends { WriteEnds answer.now.text (K.held sink.old) (K.held sink.new) (K.faults sink.old) (K.faults sink.new) result }
    ensures answer { IsAnswer answer.now.text }
    ensures later { K.faults sink.old ≤ K.faults sink.new }
{
    let given = give_all(sink, answer.as_slice());
    written_as(given)
}

/// A line goes on that waits with these bytes. They are cut and hashed first, between two turns, so that a
/// thread that takes one meanwhile, as by a RECALL that is to be answered, doesn't wait for that. Where memory
/// ran out the client does it itself.
fn go_on<'e, R: Threads + Wait, D: Turns + Drop, C: Clock>(
    rt: &'e R,
    turns: &ScriptTurns<'e, D>,
    clock: &'e C,
    bytes: SharedBytes,
) {
    let found = CutBytes::cut(rt, turns.alloc(), bytes).ok();
    turns.go_on(rt, found, clock.now());
}

/// A line runs to its end.
fn run_line<
    's,
    'e,
    R: Threads + Wait + Sync,
    D: Turns<L = N::L> + Drop + Send,
    N: Network,
    C: Clock + Sync,
>(
    scope: &'s Scope<'s, &'e ()>,
    rt: &'e R,
    turns: &ScriptTurns<'e, D>,
    dialler: &mut Dialler<N, N::L>,
    clock: &'e C,
    line: MountLine,
) -> Result<AnswerLine, MountError>
where
    N::L: Drop + Send + 's,
    ensures ran { IfOk result (λ answer. Ran D.runs D.takes line answer) }
    ensures why { IfErr result (λ e. Unjoined (IsFaulty N.L.faults dialler.new.unpaired) (N.faults dialler.old.net) (N.faults dialler.new.net) e) }
    ensures later { N.faults dialler.old.net ≤ N.faults dialler.new.net }
{
    let (wants, bytes) = turns.run(rt, line, clock.now());
    if let Some(bytes) = bytes {
        go_on(rt, turns, clock, bytes);
    }
    if wants {
        connect(scope, rt, turns, dialler, clock)?;
    }
    match turns.await_line(rt) {
        Ok(answer) => Ok(answer),
        Err(_want) => Err(MountError::Memory),
    }
}

/// A line that isn't skipped runs to its end and is told.
fn tell_line<
    's,
    'e,
    R: Threads + Wait + Sync,
    D: Turns<L = N::L> + Drop + Send,
    N: Network,
    C: Clock + Sync,
    K: Sink,
>(
    scope: &'s Scope<'s, &'e ()>,
    rt: &'e R,
    turns: &ScriptTurns<'e, D>,
    dialler: &mut Dialler<N, N::L>,
    clock: &'e C,
    sink: &mut K,
    line: MountLine,
) -> Result<(), MountError>
where
    N::L: Drop + Send + 's,
    ensures ends { AnswerEnds (SaysRun D.runs D.takes) (IsFaulty N.L.faults dialler.new.unpaired) line (K.held sink.old)
        (K.held sink.new) (K.faults sink.old) (K.faults sink.new) (N.faults dialler.old.net)
        (N.faults dialler.new.net) result }
    ensures later { (N.faults dialler.old.net ≤ N.faults dialler.new.net) × (K.faults sink.old ≤ K.faults sink.new) }
{
    // Errors are handed on by a `match`, which is proved more cheaply than `?` (docs/PROVING.md, Code).
    match run_line(scope, rt, turns, dialler, clock, line) {
        Ok(answer) => write_answer(sink, &answer),
        Err(why) => Err(why),
    }
}

/// A line of the script, numbered from 1, is read, runs to its end and is told.
fn run_text<
    's,
    'e,
    R: Threads + Wait + Sync,
    D: Turns<L = N::L> + Drop + Send,
    N: Network,
    C: Clock + Sync,
    K: Sink,
>(
    scope: &'s Scope<'s, &'e ()>,
    rt: &'e R,
    turns: &ScriptTurns<'e, D>,
    dialler: &mut Dialler<N, N::L>,
    clock: &'e C,
    sink: &mut K,
    text: &[u8],
    number: u64,
) -> Result<(), MountError>
where
    N::L: Drop + Send + 's,
    ensures ends { TextEnds (SaysRun D.runs D.takes) (IsFaulty N.L.faults dialler.new.unpaired) (line_of text.now) number
        (K.held sink.old) (K.held sink.new) (K.faults sink.old) (K.faults sink.new)
        (N.faults dialler.old.net) (N.faults dialler.new.net) result }
    ensures later { (N.faults dialler.old.net ≤ N.faults dialler.new.net) × (K.faults sink.old ≤ K.faults sink.new) }
{
    // Asked of the text, since a line that was read would have to be dropped.
    if is_skipped(text) {
        return Ok(());
    }
    match MountLine::read(turns.alloc(), text) {
        Ok(line) => tell_line(scope, rt, turns, dialler, clock, sink, line),
        Err(LineError::BadLine) => Err(MountError::BadLine { number }),
        Err(LineError::Memory) => Err(MountError::Memory),
    }
}

/// Runs the lines of the script to its end.
fn run_on<
    's,
    'e,
    R: Threads + Wait + Sync,
    D: Turns<L = N::L> + Drop + Send,
    N: Network,
    C: Clock + Sync,
    S: Source,
    K: Sink,
>(
    scope: &'s Scope<'s, &'e ()>,
    rt: &'e R,
    turns: &ScriptTurns<'e, D>,
    dialler: &mut Dialler<N, N::L>,
    clock: &'e C,
    script: &mut S,
    sink: &mut K,
) -> Result<(), MountError>
where
    N::L: Drop + Send + 's,
    ensures ends { Ends (SaysRun D.runs D.takes) (IsFaulty N.L.faults dialler.new.unpaired)
        (record {
          left = S.left script.old;
          reads = S.faults script.old;
          held = K.held sink.old;
          writes = K.faults sink.old;
          dials = N.faults dialler.old.net;
        })
        (record {
          left = S.left script.new;
          reads = S.faults script.new;
          held = K.held sink.new;
          writes = K.faults sink.new;
          dials = N.faults dialler.new.net;
        }) result }
    ensures later { (S.faults script.old ≤ S.faults script.new) × (K.faults sink.old ≤ K.faults sink.new) }
{
    let mut lines = match Script::new(turns.alloc()) {
        Ok(lines) => lines,
        Err(_want) => return Err(MountError::Memory),
    };
    for at in 0..u64::MAX {
        match lines.next(turns.alloc(), script) {
            Ok(came) => match came {
                Some(text) => {
                    let told = run_text(
                        scope,
                        rt,
                        turns,
                        dialler,
                        clock,
                        sink,
                        text.as_slice(),
                        at + 1,
                    );
                    drop(text);
                    match told {
                        Ok(()) => {}
                        Err(why) => return Err(why),
                    }
                }
                None => return Ok(()),
            },
            Err(why) => return Err(read_end(why)),
        }
    }
    Err(MountError::Memory)
}

/// Joins a connection and runs the lines of the script to its end.
pub(crate) fn run_lines<
    's,
    'e,
    R: Threads + Wait + Sync,
    D: Turns<L = N::L> + Drop + Send,
    N: Network,
    C: Clock + Sync,
    S: Source,
    K: Sink,
>(
    scope: &'s Scope<'s, &'e ()>,
    rt: &'e R,
    turns: &ScriptTurns<'e, D>,
    dialler: &mut Dialler<N, N::L>,
    clock: &'e C,
    script: &mut S,
    sink: &mut K,
) -> Result<(), MountError>
where
    N::L: Drop + Send + 's,
    ensures ends { Ends (SaysRun D.runs D.takes) (IsFaulty N.L.faults dialler.new.unpaired)
        (record {
          left = S.left script.old;
          reads = S.faults script.old;
          held = K.held sink.old;
          writes = K.faults sink.old;
          dials = N.faults dialler.old.net;
        })
        (record {
          left = S.left script.new;
          reads = S.faults script.new;
          held = K.held sink.new;
          writes = K.faults sink.new;
          dials = N.faults dialler.new.net;
        }) result }
    ensures later { (S.faults script.old ≤ S.faults script.new) × (K.faults sink.old ≤ K.faults sink.new) }
{
    match connect(scope, rt, turns, dialler, clock) {
        Ok(()) => run_on(scope, rt, turns, dialler, clock, script, sink),
        Err(why) => Err(why),
    }
}
