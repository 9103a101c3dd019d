//! What an event does to the bytes on their way before more are sent. `specs/World.antt` says what
//! is lost.

ghost use Rattle.std.specs.Prelude.{◌≡◌, OnOk};
ghost use Rattle.trace_replay.specs.World.{down_lost, up_lost, lost_by};
ghost use Rattle.trace_ends.specs.Numbers.{numbered};
ghost use Rattle.trace_ends.specs.View.{loss_of};

use session_rules::numbers::place_of;
use session_rules::wire::Wire;
use std::alloc::{AllocError, Global};
use trace_ends::core_step::Loss;

/// What is on its way down a session is dropped.
fn lose_down(alloc: Global, wires: &mut Vec<Wire>, number: u32)
    ensures { wires.new.items ≡ down_lost wires.old.items number (numbered wires.old.items number) }
{
    if let Some(place) = place_of(wires.len(), u64::from(number)) {
        wires[place].lose_down(alloc);
    }
}

/// What is on its way up a session is dropped.
fn lose_up(alloc: Global, wires: &mut Vec<Wire>, number: u32)
    ensures { wires.new.items ≡ up_lost wires.old.items number (numbered wires.old.items number) }
{
    if let Some(place) = place_of(wires.len(), u64::from(number)) {
        wires[place].lose_up(alloc);
    }
}

/// A session is made, or what is on its way down or up one is dropped. The one error is running out
/// of memory for a session that is made.
pub fn lose(alloc: Global, wires: &mut Vec<Wire>, loss: Loss) -> Result<(), AllocError>
    ensures { OnOk result (wires.new.items ≡ lost_by wires.old.items (loss_of loss)) }
{
    match loss {
        Loss::Nothing => {}
        Loss::Made => wires.push(Wire::new(alloc))?,
        Loss::DownOf(number) => lose_down(alloc, wires, number),
        Loss::UpOf(number) => lose_up(alloc, wires, number),
    }
    Ok(())
}
