//! A generated trace replayed, block by block.

ghost use Rattle.std.specs.Prelude.{◌≡◌, ◌≤◌, ◌<◌, ◌^◌, Ok, IfOk, string_bytes};
ghost use Rattle.command_text.specs.Parts.{lines_of};
ghost use Rattle.trace_replay.specs.Timed.{Timed, accepted};
ghost use Rattle.trace_replay.specs.Lines.{applied_from};
ghost use Rattle.trace_generator.specs.Lines.{opening_lines, block_lines, generated_text, text_of};
ghost use Rattle.trace_generator.specs.declared.TheConstants.{BLOCKS_MOST};
ghost use Rattle.lbfs_run.specs.Taken.{AreTaken};

use std::alloc::{AllocError, Global};
use trace_generator::BLOCKS_MOST;
use trace_generator::blocks::put_block;
use trace_generator::text::put_opening;
use trace_replay::fault::TraceError;
use trace_replay::run::run_lines;
use trace_replay::world::World;

/// Runs the lines of a text that are all taken, of which the first has this number, and gives the
/// number of the line behind them.
fn run_taken(alloc: Global, world: &mut World, first: u64, text: &[u8]) -> Result<u64, AllocError>
    requires small { first < 2 ^ 63 }
    requires taken { AreTaken world.old first (lines_of text.now) }
    ensures { IfOk result (λ next. applied_from world.old first (lines_of text.now) ≡ Ok (world.new, next)) }
{
    match run_lines(alloc, world, first, text) {
        Ok(next) => Ok(next),
        Err(TraceError::Memory) => Err(AllocError),
        Err(TraceError::Refused(_)) => unreachable!(),
    }
}

/// The lines in front of the blocks.
#[tactic(auto, using(crate::proofs::Parts::opening_read))]
fn run_opening(alloc: Global, world: &mut World, seed: u64) -> Result<u64, AllocError>
    requires { AreTaken world.old 1 (opening_lines seed) }
    ensures { IfOk result (λ next. applied_from world.old 1 (opening_lines seed) ≡ Ok (world.new, next)) }
{
    let mut text = String::new(alloc);
    put_opening(&mut text, seed)?;
    run_taken(alloc, world, 1, text.as_bytes())
}

/// The lines of a block.
#[tactic(auto, using(crate::proofs::Parts::block_read))]
fn run_block(
    alloc: Global,
    world: &mut World,
    first: u64,
    seed: u64,
    block: u64,
) -> Result<u64, AllocError>
    requires small { first < 2 ^ 63 }
    requires block { block ≤ BLOCKS_MOST }
    requires taken { AreTaken world.old first (block_lines seed block) }
    ensures { IfOk result (λ next. applied_from world.old first (block_lines seed block) ≡ Ok (world.new, next)) }
{
    let mut text = String::new(alloc);
    put_block(&mut text, seed, block)?;
    run_taken(alloc, world, first, text.as_bytes())
}

/// The world that a generated trace of so many blocks comes to. Its text is made block by block, and
/// never held whole. The one error is running out of memory.
pub fn replayed(alloc: Global, seed: u64, blocks: u64) -> Result<World, AllocError>
    requires { blocks ≤ BLOCKS_MOST }
    ensures { IfOk result (λ v. accepted (generated_text seed blocks) ≡ Ok v.world) }
{
    let mut world = World::new(alloc)?;
    let mut next = run_opening(alloc, &mut world, seed)?;
    for block in 0..blocks {
        next = run_block(alloc, &mut world, next, seed, block + 1)?;
    }
    Ok(world)
}
