//! A connection is lost, at either end. `cuts` and `hangs` in `specs/Core.antt` say what that makes of
//! the two ends.

ghost use Rattle.std.specs.Prelude.{◌≡◌, ◌+◌, ◌<◌, length, slice_get, IfOk, IfSome, OnOk};
ghost use Rattle.server_core.specs.Step.{server_step};
ghost use Rattle.server_core.specs.declared.event.Event.TheVariants as event;
ghost use Rattle.trace_ends.specs.Core.{loss_down, loses, cut_session, cuts, happens, Event.Cuts, Event.Hangs};
ghost use Rattle.trace_ends.specs.Session.{session_of};
ghost use Rattle.trace_ends.specs.View.{core_of, loss_of, core_step_of};

use crate::core_step::{CoreStep, Loss};
use crate::ops::note_with;
use crate::session::{short_number, taken_of};
use crate::world_core::{Core, count_on};
use server_core::event::{Event, drop_step};
use server_core::server::Server;
use session_rules::numbers::place_of;
use session_rules::running::running_at;
use session_rules::session::Session;
use std::alloc::{AllocError, Global};

/// What is dropped where a client loses its newest session: what is on its way down.
fn loss_down(session: Option<u32>) -> Loss
    ensures { loss_of result ≡ loss_down session }
{
    match session {
        None => Loss::Nothing,
        Some(number) => Loss::DownOf(number),
    }
}

/// A client's newest session was cut.
fn cut_session(sessions: &mut Vec<Session>, session: Option<u32>)
    ensures { sessions.new.items ≡ cut_session sessions.old.items session (session_of sessions.old.items session) }
{
    let Some(number) = session else {
        return;
    };
    if let Some(place) = place_of(sessions.len(), u64::from(number)) {
        sessions[place].cut = true;
    }
}

/// The client at this place sees its connection lost. Where it isn't joined that is a step, and no
/// more.
fn cuts_at(alloc: Global, core: &mut Core, place: usize) -> Result<CoreStep, AllocError>
    requires { place < length core.old.seats.items }
    ensures { IfOk result (λ t. core_step_of core.new t ≡ cuts (core_of core.old) (place + 1) (slice_get core.old.seats.items place)) }
{
    let step = count_on(core.steps, 1)?;
    core.steps = step;
    if !core.seats[place].linked() {
        return Ok(CoreStep::quiet(alloc));
    }
    let running = running_at(&core.seats, place);
    let seat = &mut core.seats[place];
    let session = seat.session();
    let acts = seat.cuts(alloc);
    let taken = taken_of(&core.sessions, session);
    note_with(
        alloc,
        &mut core.ops,
        running,
        seat.client(),
        taken,
        step,
        &acts,
    )?;
    cut_session(&mut core.sessions, session);
    Ok(CoreStep::acted(alloc, loss_down(session), session, acts))
}

/// The server sees this session's connection lost, and has nothing to say.
fn hang(alloc: Global, server: &mut Server, session: u32) -> Result<(), AllocError>
    ensures { OnOk result (server.new ≡ (server_step server.old (event.Hang session)).0) }
{
    let step = server.step_unkept(alloc, Event::Hang { session });
    let missed = step.missed;
    drop_step(step);
    if missed {
        return Err(AllocError);
    }
    Ok(())
}

/// The server sees the connection of the session at this place lost, which it didn't before, or closes it.
pub(crate) fn loses(alloc: Global, core: &mut Core, place: usize) -> Result<CoreStep, AllocError>
    requires { place < length core.old.sessions.items }
    ensures { IfOk result (λ t. IfSome (slice_get core.old.sessions.items place) (λ x. core_step_of core.new t ≡ loses (core_of core.old) (place + 1) x)) }
{
    let number = short_number(place as u64 + 1)?;
    core.steps = count_on(core.steps, 1)?;
    hang(alloc, &mut core.server, number)?;
    core.sessions[place].hang();
    Ok(CoreStep::losing(alloc, Loss::UpOf(number)))
}

impl Core {
    /// A client sees its connection lost, if there is one of this number.
    pub fn cuts(&mut self, alloc: Global, client: u64) -> Result<CoreStep, AllocError>
        ensures { IfOk result (λ t. core_step_of self.new t ≡ happens (core_of self.old) (Cuts client)) }
    {
        match place_of(self.seats.len(), client) {
            Some(place) => cuts_at(alloc, self, place),
            None => Ok(CoreStep::quiet(alloc)),
        }
    }

    /// The server sees a session's connection lost, if there is one of this number, unless it did so
    /// before.
    pub fn hangs(&mut self, alloc: Global, session: u64) -> Result<CoreStep, AllocError>
        ensures { IfOk result (λ t. core_step_of self.new t ≡ happens (core_of self.old) (Hangs session)) }
    {
        let Some(place) = place_of(self.sessions.len(), session) else {
            return Ok(CoreStep::quiet(alloc));
        };
        if self.sessions[place].is_hung() {
            return Ok(CoreStep::quiet(alloc));
        }
        loses(alloc, self, place)
    }
}
