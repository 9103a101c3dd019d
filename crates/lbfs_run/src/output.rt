//! What is written, and how the run then ends: `input_output` and `seed_output` of
//! `specs/Output.antt`.

ghost use Rattle.std.specs.Prelude.{◌≡◌, ℕ, ◌≤◌, ◌<◌, List, length, IfOk, map, string_bytes, Some, None};
ghost use Rattle.trace_text.specs.Refusals.{refusal_of};
ghost use Rattle.lbfs_run.specs.Output.{view_text, replay_output, input_output, seed_output, IsWhole};
ghost use Rattle.trace_generator.specs.declared.TheConstants.{BLOCKS_MOST};
ghost use Rattle.exit_status.specs.declared.status.Status.TheVariants as status;

use crate::chunk_lines::cut_text;
use crate::replayed::replayed;
use exit_status::status::Status;
use lb_base::items::{Bytes, Items};
use program_words::asked::{InputCommand, SeedCommand, View};
use record_show::show::shown;
use register_model::text;
use std::alloc::{AllocError, Global};
use trace_replay::fault::{Refused, TraceError};
use trace_replay::run::run;
use trace_replay::world::World;
use trace_text::refusal::Refusal;

/// What is to be written, and the status that it is written with.
#[derive(Drop)]
pub struct Output {
    /// How the run ends once the text is written.
    pub status: Status,
    /// The bytes to write.
    pub text: Bytes,
}

/// The refusal's text, with this status.
pub fn refused(alloc: Global, status: Status, refusal: Refusal) -> Result<Output, AllocError>
    ensures { IfOk result (λ out. (out.status ≡ status) × (out.text ≡ refusal_of refusal)) }
{
    let text = refusal.text(alloc)?;
    Ok(Output {
        status,
        text: Items::from_vec(text.into_bytes()),
    })
}

/// How the run that came to this world is told.
fn viewed(alloc: Global, view: View, world: World) -> Result<Bytes, AllocError>
    ensures { IfOk result (λ text. text ≡ view_text view world.world) }
{
    let journal = world.journal() as u64;
    let history = world.history(alloc)?;
    match view {
        View::History => text::text(alloc, &history),
        View::Summary => text::summary_text(alloc, &history, journal),
    }
}

/// The world of a run, told.
fn done(alloc: Global, view: View, world: World) -> Result<Output, AllocError>
    ensures { IfOk result (λ out. (out.status ≡ status.Done) × (out.text ≡ view_text view world.world)) }
{
    let text = viewed(alloc, view, world)?;
    Ok(Output {
        status: Status::Done,
        text,
    })
}

/// The run of a trace, or the first line that is refused.
fn ran(alloc: Global, view: View, trace: &[u8]) -> Result<Output, AllocError>
    ensures { IfOk result (λ out. (out.status, out.text) ≡ replay_output view trace.now) }
{
    match run(alloc, trace) {
        Ok(world) => done(alloc, view, world),
        Err(TraceError::Refused(Refused { line, fault })) => refused(
            alloc,
            Status::Refused,
            Refusal::Line {
                number: line,
                fault,
            },
        ),
        Err(TraceError::Memory) => Err(AllocError),
    }
}

/// What the command writes for an input that is not too long. The one error is running out of
/// memory.
pub fn input_output(
    alloc: Global,
    command: InputCommand,
    input: &[u8],
) -> Result<Output, AllocError>
    ensures output { IfOk result (λ out. (out.status, out.text) ≡ input_output command input.now) }
    ensures whole { IfOk result (λ out. IsWhole out.status) }
{
    match command {
        InputCommand::Replay(view) => ran(alloc, view, input),
        InputCommand::Cut => Ok(Output {
            status: Status::Done,
            text: cut_text(alloc, input)?,
        }),
        InputCommand::Show => Ok(Output {
            status: Status::Done,
            text: shown(alloc, input)?,
        }),
    }
}

/// What the command writes of a generated trace. The one error is running out of memory.
pub fn seed_output(
    alloc: Global,
    seed: u64,
    blocks: u64,
    command: SeedCommand,
) -> Result<Output, AllocError>
    requires { blocks ≤ BLOCKS_MOST }
    ensures output { IfOk result (λ out. (out.status, out.text) ≡ seed_output seed blocks command) }
    ensures whole { IfOk result (λ out. IsWhole out.status) }
{
    match command {
        SeedCommand::Write => Ok(Output {
            status: Status::Done,
            text: trace_generator::text::text(alloc, seed, blocks)?,
        }),
        SeedCommand::Replay(view) => {
            let world = replayed(alloc, seed, blocks)?;
            done(alloc, view, world)
        }
    }
}
