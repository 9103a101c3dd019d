//! A record comes to a client. `hears` in `specs/Core.antt` says what that makes of the two ends.

ghost use Rattle.std.specs.Prelude.{◌≡◌, ◌+◌, ◌<◌, length, slice_get, IfOk};
ghost use Rattle.trace_ends.specs.Core.{hears_at, happens, Event.Hears};
ghost use Rattle.trace_ends.specs.Numbers.{numbered};
ghost use Rattle.trace_ends.specs.View.{core_of, core_step_of};

use crate::core_step::{CoreStep, Loss};
use crate::ops::note_with;
use crate::session::{is_newest, taken_of};
use crate::world_core::{Core, count_on};
use session_rules::numbers::place_of;
use session_rules::running::Runs;
use std::alloc::{AllocError, Global};

/// The client at this place hears a record of this session, unless it has left it.
fn hears_at(
    alloc: Global,
    core: &mut Core,
    number: u64,
    place: usize,
    now: u64,
    bytes: &[u8],
) -> Result<CoreStep, AllocError>
    requires { place < length core.old.seats.items }
    ensures { IfOk result (λ t. core_step_of core.new t ≡ hears_at (core_of core.old) number (place + 1) now bytes.now (slice_get core.old.seats.items place)) }
{
    let seat = &core.seats[place];
    let session = seat.session();
    let running = seat.place();
    if !is_newest(session, number) {
        return Ok(CoreStep::quiet(alloc));
    }
    let step = count_on(core.steps, 1)?;
    let seat = &mut core.seats[place];
    let acts = seat.hears(alloc, bytes, now)?;
    let taken = taken_of(&core.sessions, session);
    note_with(
        alloc,
        &mut core.ops,
        running,
        seat.client(),
        taken,
        step,
        &acts,
    )?;
    core.steps = step;
    Ok(CoreStep::acted(alloc, Loss::Nothing, session, acts))
}

/// The client of this number hears a record of this session, if there is one.
fn hears_by(
    alloc: Global,
    core: &mut Core,
    number: u64,
    owner: u64,
    now: u64,
    bytes: &[u8],
) -> Result<CoreStep, AllocError>
    ensures { IfOk result (λ t. core_step_of core.new t ≡ hears_at (core_of core.old) number owner now bytes.now (numbered core.old.seats.items owner)) }
{
    match place_of(core.seats.len(), owner) {
        Some(place) => hears_at(alloc, core, number, place, now, bytes),
        None => Ok(CoreStep::quiet(alloc)),
    }
}

impl Core {
    /// A record of this session, if there is one, comes to its client, at a reading of that one's
    /// clock in milliseconds.
    pub fn hears(
        &mut self,
        alloc: Global,
        session: u64,
        now: u64,
        bytes: &[u8],
    ) -> Result<CoreStep, AllocError>
        ensures { IfOk result (λ t. core_step_of self.new t ≡ happens (core_of self.old) (Hears session now bytes.now)) }
    {
        match place_of(self.sessions.len(), session) {
            Some(at) => {
                let owner = self.sessions[at].owner;
                hears_by(alloc, self, session, owner, now, bytes)
            }
            None => Ok(CoreStep::quiet(alloc)),
        }
    }
}
