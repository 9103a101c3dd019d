//! A record comes to the server. `serves` in `specs/Core.antt` says what that makes of the two ends.

ghost use Rattle.std.specs.Prelude.{◌≡◌, ◌+◌, ◌<◌, ◌^◌, ◌++◌, length, replicate, slice_get, slice_set, IfOk, IfSome, OnOk};
ghost use Rattle.trace_ends.specs.Core.{came_with, changed_entry, changed_file, newest_entries, raws_with, server_got, serves_none, serves, happens, Event.Serves};
ghost use Rattle.trace_ends.specs.Ops.{pointed_at};
ghost use Rattle.trace_ends.specs.Session.{is_raw, taken_with};
ghost use Rattle.trace_ends.specs.View.{core_of, core_step_of};

use crate::core_step::CoreStep;
use crate::disconnecting::loses;
use crate::entering::{changed_by, enter};
use crate::raw_changes::put_raw;
use crate::session::{remember, short_number};
use crate::world_core::{Core, count_on};
use server_core::event::{Event, drop_message, drop_step};
use session_rules::numbers::place_of;
use session_rules::pointing::point_at;
use std::alloc::{AllocError, Global};
use wire::fault::WireFault;
use wire::message::Message;
use wire::parse::message_of;

/// The step in which a message of the session at this place is taken, where no change of it waits.
fn note_step(came: &mut Vec<u64>, place: usize, waits: bool, step: u64)
    ensures { came.new.items ≡ came_with came.old.items waits (place + 1) step }
{
    if waits {
        return;
    }
    if place < came.len() {
        came[place] = step;
    }
}

/// Counts the step in which a message of the session at this place is taken, and remembers it. A change
/// of the session waits or doesn't.
fn note(core: &mut Core, place: usize, waits: bool, message: &Message) -> Result<(), AllocError>
    requires { place < length core.old.sessions.items }
    ensures { OnOk result (IfSome (slice_get core.old.sessions.items place)
        (λ x. core_of core.new
        ≡ record (core_of core.old) {
          steps = core.old.steps + 1;
          sessions = slice_set core.old.sessions.items place
              (record x { taken = taken_with x.taken message.now (core.old.steps + 1) });
          came = came_with core.old.came.items waits (place + 1) (core.old.steps + 1);
        })) }
{
    let step = count_on(core.steps, 1)?;
    remember(&mut core.sessions[place], message, step)?;
    note_step(&mut core.came, place, waits, step);
    core.steps = step;
    Ok(())
}

/// The operation of this session that changed a file has its point at this step, and the last `made`
/// entries of the journal have this step. Where the session is no client's, the change is its own.
fn enter_at(alloc: Global, core: &mut Core, place: usize, made: u32) -> Result<(), AllocError>
    requires { place < length core.old.sessions.items }
    ensures { OnOk result (IfSome (slice_get core.old.sessions.items place)
        (λ x. core_of core.new
        ≡ record
        (core_of core.old) {
          ops = pointed_at core.old.ops.items x.closing core.old.steps
              (changed_file (newest_entries core.old.server.journal made));
          entries = core.old.entries.items ++ replicate made core.old.steps;
          raws = raws_with core.old.raws.items
              (is_raw x) core.old.steps core.old.steps core.old.server.tree
              (changed_entry (newest_entries core.old.server.journal made));
        })) }
{
    let changed = changed_by(core.server.journal(), made);
    let (step, own) = (core.steps, &core.sessions[place]);
    point_at(&mut core.ops, own.closing, step, changed);
    let is_raw = own.is_raw();
    put_raw(
        alloc,
        &mut core.raws,
        &core.server,
        is_raw,
        made,
        step,
        step,
    )?;
    enter(&mut core.entries, made, step)
}

/// The server takes a message of the session at this place, at this reading of its clock.
fn got(
    alloc: Global,
    core: &mut Core,
    place: usize,
    now: u64,
    message: Message,
) -> Result<CoreStep, AllocError>
    requires place { place < length core.old.sessions.items }
    requires now { now < 2 ^ 63 }
    ensures { IfOk result (λ t. IfSome (slice_get core.old.sessions.items place) (λ x. core_step_of core.new t ≡ server_got (core_of core.old) (place + 1) now x message)) }
{
    let session = match short_number(place as u64 + 1) {
        Ok(session) => session,
        Err(error) => {
            drop_message(message);
            return Err(error);
        }
    };
    let waits = core.server.has_waiting(session);
    match note(core, place, waits, &message) {
        Ok(()) => (),
        Err(error) => {
            drop_message(message);
            return Err(error);
        }
    }
    let event = Event::Got {
        session,
        message,
        now,
    };
    let step = core.server.step_unkept(alloc, event);
    if step.missed {
        drop_step(step);
        return Err(AllocError);
    }
    match enter_at(alloc, core, place, step.entries) {
        Ok(()) => Ok(CoreStep::served(alloc, step)),
        Err(error) => {
            drop_step(step);
            Err(error)
        }
    }
}

/// Bytes of the session at this place are no message: that closes it, but for an answer to a call that
/// doesn't wait, which changes nothing but the count of steps.
fn serves_none(
    alloc: Global,
    core: &mut Core,
    place: usize,
    fault: WireFault,
) -> Result<CoreStep, AllocError>
    requires { place < length core.old.sessions.items }
    ensures { IfOk result (λ t. IfSome (slice_get core.old.sessions.items place) (λ x. core_step_of core.new t ≡ serves_none (core_of core.old) (place + 1) x fault)) }
{
    match fault {
        WireFault::UnknownXid { .. } => {
            core.steps = count_on(core.steps, 1)?;
            Ok(CoreStep::quiet(alloc))
        }
        WireFault::NotRpc { .. } | WireFault::Garbage { .. } => loses(alloc, core, place),
    }
}

/// The server takes a record of the session at this place, at this reading of its clock, unless it has
/// seen the session lost.
fn serves_at(
    alloc: Global,
    core: &mut Core,
    place: usize,
    now: u64,
    bytes: &[u8],
) -> Result<CoreStep, AllocError>
    requires place { place < length core.old.sessions.items }
    requires now { now < 2 ^ 63 }
    ensures { IfOk result (λ t. core_step_of core.new t ≡ serves (core_of core.old) (place + 1) now bytes.now (slice_get core.old.sessions.items place)) }
{
    if core.sessions[place].is_hung() {
        return Ok(CoreStep::quiet(alloc));
    }
    let session = short_number(place as u64 + 1)?;
    let said = message_of(alloc, bytes, core.server.waiting(session))?;
    match said {
        Ok(message) => got(alloc, core, place, now, message),
        Err(fault) => serves_none(alloc, core, place, fault),
    }
}

impl Core {
    /// The server takes a record of this session, if there is one, at a reading of its clock in
    /// milliseconds.
    pub fn serves(
        &mut self,
        alloc: Global,
        session: u64,
        now: u64,
        bytes: &[u8],
    ) -> Result<CoreStep, AllocError>
        requires { now < 2 ^ 63 }
        ensures { IfOk result (λ t. core_step_of self.new t ≡ happens (core_of self.old) (Serves session now bytes.now)) }
    {
        match place_of(self.sessions.len(), session) {
            Some(place) => serves_at(alloc, self, place, now, bytes),
            None => Ok(CoreStep::quiet(alloc)),
        }
    }
}
