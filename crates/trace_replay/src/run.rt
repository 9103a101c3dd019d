//! A trace run line by line. `specs/Timed.antt` says what it comes to.

ghost use Rattle.std.specs.Prelude.{◌≡◌, ◌<◌, ◌^◌};
ghost use Rattle.command_text.specs.Parts.{lines_of};
ghost use Rattle.trace_replay.specs.Timed.{accepted};
ghost use Rattle.trace_replay.specs.Lines.{applied_from, AreApplied, ComesTo};
ghost use Rattle.trace_replay.specs.Traces.{Gives};

use crate::fault::{TraceError, refusal};
use crate::world::World;
use command_text::line_error::LineError;
use command_text::parts::first_line;
use register_model::history::History;
use std::alloc::Global;
use trace_text::line::Line;
use trace_text::refusal::LineFault;

/// Runs the lines of a text, of which the first has this number, and gives the number of the line
/// behind them. `Refused`: the first line that is outside the grammar, out of place, past a limit, or
/// against the clock rule. After an error the world is of no further use.
pub fn run_lines(
    alloc: Global,
    world: &mut World,
    first: u64,
    text: &[u8],
) -> Result<u64, TraceError>
    requires { first < 2 ^ 63 }
    ensures { AreApplied result (applied_from world.old first (lines_of text.now)) world.new }
{
    let mut number = first;
    let mut rest = text;
    'lines: while let Some((line, left)) = first_line(rest) {
        let line = match Line::read(alloc, line) {
            Ok(line) => line,
            Err(LineError::BadLine) => return Err(refusal(number, LineFault::Grammar)),
            Err(LineError::Memory) => return Err(TraceError::Memory),
        };
        world.apply(alloc, number, line)?;
        number += 1;
        rest = left;
    }
    Ok(number)
}

/// The world that a trace comes to. `Refused`: the first line that is refused, or the one behind the
/// last where the header is not whole.
#[tactic(auto, using(crate::proofs::lemmas::Going::accepted_at_end))]
pub fn run(alloc: Global, input: &[u8]) -> Result<World, TraceError>
    ensures { ComesTo result (accepted input.now) }
{
    let mut world = World::new(alloc)?;
    let next = run_lines(alloc, &mut world, 1, input)?;
    if world.in_header() {
        return Err(refusal(next, LineFault::Grammar));
    }
    Ok(world)
}

/// The history that a trace comes to, or the first line that is refused.
pub fn replay(alloc: Global, input: &[u8]) -> Result<History, TraceError>
    ensures { Gives result (accepted input.now) }
{
    let world = run(alloc, input)?;
    Ok(world.history(alloc)?)
}
