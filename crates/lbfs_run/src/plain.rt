//! A run of a command over any source and any sink. What it comes to is `output_for` of
//! `specs/Output.antt`; what each status says is in `specs/PlainEnds.antt`.

ghost use Rattle.std.specs.Prelude.{◌≡◌, ℕ, ◌<◌, ◌≤◌, ◌⊎◌, List, IfOk, IsErrOf, Option, Some, None, true, false};
ghost use Rattle.std.specs.Io.KnownBytes.{Consumes, IsAtEnd};
ghost use Rattle.lb_base.specs.Causes.{Rose};
ghost use Rattle.trace_generator.specs.Lines.{generated_text};
ghost use Rattle.trace_generator.specs.declared.TheConstants.{BLOCKS_MOST};
ghost use Rattle.program_words.specs.declared.asked.View.{View};
ghost use Rattle.program_words.specs.declared.asked.InputCommand.TheVariants as input;
ghost use Rattle.program_words.specs.declared.asked.SeedCommand.{SeedCommand};
ghost use Rattle.program_words.specs.declared.asked.SeedCommand.TheVariants as seeded;
ghost use Rattle.program_words.specs.declared.asked.Command.TheVariants.{OfInput, OfSeed};
ghost use Rattle.exit_status.specs.declared.status.Status.TheVariants as status;
ghost use Rattle.program_words.specs.Words.{IsFew, reads};
ghost use Rattle.lbfs_run.specs.Output.{output_for, IsWhole};
ghost use Rattle.lbfs_run.specs.PlainEnds.{IsAnswered, IsAnsweredFrom, IsBegun, IsBegunFrom, IsBroken, IsBrokenFrom, IsPlainEnd, IsRun};
ghost use Rattle.lbfs_run.specs.declared.plain.UnreadError.TheVariants as unread;

use crate::law::generated_traces_are_accepted;
use crate::output::{Output, input_output, refused, seed_output};
use exit_status::status::Status;
use kept_promise::law::promise_is_kept;
use lb_base::sink::{GiveError, Sink, give_all};
use lb_base::source::{ReadError, Source, read_all};
use program_words::asked::{Command, InputCommand};
use std::alloc::{AllocError, Global};
use trace_text::refusal::Refusal;

/// The most bytes that an input may have.
const MOST_BYTES: usize = limits::INPUT_MOST;

/// Why there is no output.
#[derive(Clone, Copy)]
enum UnreadError {
    /// The source failed.
    Fault,
    /// Memory ran out.
    Memory,
}

impl From<AllocError> for UnreadError {
    ghost from_gives = { λ _ e. e ≡ unread.Memory };

    fn from(_want: AllocError) -> UnreadError {
        UnreadError::Memory
    }
}

/// The output of a command for what the source gives, which is read to its end before.
fn read_and_run<S: Source>(
    alloc: Global,
    command: InputCommand,
    source: &mut S,
) -> Result<Output, UnreadError>
    ensures told { IfOk result (λ out. (input : List ℕ) → S.left source.old ≡ Some input → output_for (Some (OfInput command)) input ≡ (out.status, out.text)) }
    ensures taken { IfOk result (λ out. (input : List ℕ)
        × Consumes (S.left source.old) (S.left source.new) input
        × (out.status ≡ status.Done → IsAtEnd (S.left source.new))
        × (output_for (Some (OfInput command)) input ≡ (out.status, out.text))) }
    ensures whole { IfOk result (λ out. IsWhole out.status) }
    ensures later { S.faults source.old ≤ S.faults source.new }
    ensures fault { IsErrOf result unread.Fault → Rose (S.faults source.old) (S.faults source.new) }
{
    match read_all(alloc, MOST_BYTES, source) {
        Ok(input) => Ok(input_output(alloc, command, &input)?),
        Err(ReadError::TooLong) => Ok(refused(alloc, Status::Refused, Refusal::LimitBytes)?),
        Err(ReadError::Fault) => Err(UnreadError::Fault),
        Err(ReadError::Memory) => Err(UnreadError::Memory),
    }
}

/// What is written for a command.
fn output_of_one<S: Source>(
    alloc: Global,
    command: Command,
    source: &mut S,
) -> Result<Output, UnreadError>
    requires { IsFew (Some command) }
    ensures told { IfOk result (λ out. (input : List ℕ) → S.left source.old ≡ Some input → output_for (Some command) input ≡ (out.status, out.text)) }
    ensures taken { IfOk result (λ out. (input : List ℕ)
        × Consumes (S.left source.old) (S.left source.new) input
        × (out.status ≡ status.Done → reads (Some command) ≡ true → IsAtEnd (S.left source.new))
        × (output_for (Some command) input ≡ (out.status, out.text))) }
    ensures whole { IfOk result (λ out. IsWhole out.status) }
    ensures later { S.faults source.old ≤ S.faults source.new }
    ensures fault { IsErrOf result unread.Fault → Rose (S.faults source.old) (S.faults source.new) }
    ensures unread { reads (Some command) ≡ false → source.new ≡ source.old }
{
    match command {
        Command::OfInput(command) => read_and_run(alloc, command, source),
        Command::OfSeed {
            seed,
            blocks,
            command,
        } => Ok(seed_output(alloc, seed, blocks, command)?),
    }
}

/// The output for this command, or where there is none. Nothing is read where there is none, and for
/// a generated trace.
fn output_of<S: Source>(
    alloc: Global,
    command: Option<Command>,
    source: &mut S,
) -> Result<Output, UnreadError>
    requires { IsFew command }
    ensures told { IfOk result (λ out. (input : List ℕ) → S.left source.old ≡ Some input → output_for command input ≡ (out.status, out.text)) }
    ensures taken { IfOk result (λ out. (input : List ℕ)
        × Consumes (S.left source.old) (S.left source.new) input
        × (out.status ≡ status.Done → reads command ≡ true → IsAtEnd (S.left source.new))
        × (output_for command input ≡ (out.status, out.text))) }
    ensures whole { IfOk result (λ out. IsWhole out.status) }
    ensures later { S.faults source.old ≤ S.faults source.new }
    ensures fault { IsErrOf result unread.Fault → Rose (S.faults source.old) (S.faults source.new) }
    ensures unread { reads command ≡ false → source.new ≡ source.old }
{
    match command {
        Some(command) => output_of_one(alloc, command, source),
        None => Ok(refused(alloc, Status::BadWords, Refusal::Words)?),
    }
}

/// Reads, runs and writes, and answers the status, as `run` says.
fn run_on<S: Source, K: Sink>(
    alloc: Global,
    command: Option<Command>,
    source: &mut S,
    sink: &mut K,
) -> Status
    requires { IsFew command }
    ensures answered { IsWhole result → IsAnswered command (S.left source.old) (K.held sink.old) (K.held sink.new) result }
    ensures taken { IsWhole result → IsAnsweredFrom command (S.left source.old) (S.left source.new) (K.held sink.old) (K.held sink.new) result }
    ensures unread { reads command ≡ false → source.new ≡ source.old }
    ensures read_later { S.faults source.old ≤ S.faults source.new }
    ensures write_later { K.faults sink.old ≤ K.faults sink.new }
    ensures read_fault { result ≡ status.ReadFault → Rose (S.faults source.old) (S.faults source.new) }
    ensures nothing { result ≡ status.ReadFault → sink.new ≡ sink.old }
    ensures write_fault { result ≡ status.WriteFault → Rose (K.faults sink.old) (K.faults sink.new) }
    ensures broken { result ≡ status.WriteFault → IsBroken command (S.left source.old) (K.held sink.old) (K.held sink.new) }
    ensures broken_off { result ≡ status.WriteFault → IsBrokenFrom command (S.left source.old) (S.left source.new) (K.held sink.old) (K.held sink.new) }
    ensures starved { result ≡ status.Memory → IsBegun command (S.left source.old) (K.held sink.old) (K.held sink.new) }
    ensures starved_off { result ≡ status.Memory → (sink.new ≡ sink.old) ⊎ IsBegunFrom command (S.left source.old) (S.left source.new) (K.held sink.old) (K.held sink.new) }
    ensures known { IsPlainEnd result }
{
    let output = match output_of(alloc, command, source) {
        Ok(output) => output,
        Err(UnreadError::Fault) => return Status::ReadFault,
        Err(UnreadError::Memory) => return Status::Memory,
    };
    match give_all(sink, output.text.as_slice()) {
        Ok(()) => output.status,
        Err(GiveError::Failed) => Status::WriteFault,
        Err(GiveError::Memory) => Status::Memory,
    }
}

/// Runs a command, or refuses the words where there is none, and answers the status.
///
/// With `Done`, `BadWords` and `Refused` all of the output for the command and the input was written
/// (`answered`, where the source tells what is left in it; `taken`, whatever it tells, for bytes that
/// were taken from it), and with `Done` the source stands at its end, where the command has it read; else
/// it is untouched (`unread`). A trace that is run, read or made, is accepted, and its run keeps its
/// promise (`replayed`, `generated`); one that is made is never refused (`accepted`), nor is its text
/// where it is read (`read_again`).
///
/// With `ReadFault` the source failed, its faults rose, and nothing was written. With `WriteFault` the
/// sink failed, its faults rose, and a front of the output was written, but not all (`broken`,
/// `broken_off`). With `Memory` it ran out of memory, which no clause gives a cause; nothing was written,
/// or a front of the output (`starved`, `starved_off`). Which bytes a source gave and a sink took is
/// known only where they tell, as those in memory do; streams of the system don't.
pub fn run<S: Source, K: Sink>(
    alloc: Global,
    command: Option<Command>,
    source: &mut S,
    sink: &mut K,
) -> Status
    requires { IsFew command }
    ensures replayed { (view : View) → command ≡ Some (OfInput (input.Replay view))
        → result ≡ status.Done → (trace : List ℕ) → S.left source.old ≡ Some trace
        → IsRun view (K.held sink.old) (K.held sink.new) trace }
    ensures generated { (view : View) (seed blocks : ℕ)
        → command ≡ Some (OfSeed seed blocks (seeded.Replay view)) → result ≡ status.Done
        → IsRun view (K.held sink.old) (K.held sink.new) (generated_text seed blocks) }
    ensures accepted { (seed blocks : ℕ) (made : SeedCommand) → command ≡ Some (OfSeed seed blocks made) → result ≡ status.Refused → ⊥ }
    ensures read_again { (view : View) (seed blocks : ℕ)
        → command ≡ Some (OfInput (input.Replay view)) → blocks ≤ BLOCKS_MOST
        → S.left source.old ≡ Some (generated_text seed blocks) → result ≡ status.Refused → ⊥ }
    ensures answered { IsWhole result → IsAnswered command (S.left source.old) (K.held sink.old) (K.held sink.new) result }
    ensures taken { IsWhole result → IsAnsweredFrom command (S.left source.old) (S.left source.new) (K.held sink.old) (K.held sink.new) result }
    ensures unread { reads command ≡ false → source.new ≡ source.old }
    ensures read_later { S.faults source.old ≤ S.faults source.new }
    ensures write_later { K.faults sink.old ≤ K.faults sink.new }
    ensures read_fault { result ≡ status.ReadFault → Rose (S.faults source.old) (S.faults source.new) }
    ensures nothing { result ≡ status.ReadFault → sink.new ≡ sink.old }
    ensures write_fault { result ≡ status.WriteFault → Rose (K.faults sink.old) (K.faults sink.new) }
    ensures broken { result ≡ status.WriteFault → IsBroken command (S.left source.old) (K.held sink.old) (K.held sink.new) }
    ensures broken_off { result ≡ status.WriteFault → IsBrokenFrom command (S.left source.old) (S.left source.new) (K.held sink.old) (K.held sink.new) }
    ensures starved { result ≡ status.Memory → IsBegun command (S.left source.old) (K.held sink.old) (K.held sink.new) }
    ensures starved_off { result ≡ status.Memory → (sink.new ≡ sink.old) ⊎ IsBegunFrom command (S.left source.old) (S.left source.new) (K.held sink.old) (K.held sink.new) }
    ensures known { IsPlainEnd result }
{
    promise_is_kept();
    generated_traces_are_accepted();
    run_on(alloc, command, source, sink)
}
