//! A command of a client. `does` in `specs/Core.antt` says what it makes of the two ends.

ghost use Rattle.std.specs.Prelude.{◌≡◌, ◌+◌, ◌<◌, ◌++◌, ◌∷◌, [], length, slice_get, IfOk, OnOk};
ghost use Rattle.trace_ends.specs.Commands.{word_of, file_of, value_at_begin};
ghost use Rattle.trace_ends.specs.Core.{does, commanded_sessions, happens, Event.Does};
ghost use Rattle.trace_ends.specs.Session.{session_of};
ghost use Rattle.trace_ends.specs.Ops.{begun, op_after};
ghost use Rattle.trace_ends.specs.View.{core_of, core_step_of};

use crate::commands::{file_of, value_at_begin, word_of};
use crate::core_step::{CoreStep, Loss};
use crate::ops;
use crate::session::{commanded, short_number};
use crate::world_core::{Core, count_on};
use client_state::step::ClientStep;
use command_text::command::Command;
use open_close::client::Client;
use register_model::op::{Op, Word};
use session_rules::numbers::place_of;
use session_rules::running::Runs;
use session_rules::session::Session;
use shared_bytes::SharedBytes;
use std::alloc::{AllocError, Global};

/// What a command leaves of its client's newest session.
fn command_session(
    sessions: &mut Vec<Session>,
    session: Option<u32>,
    running: Option<usize>,
    place: usize,
    word: Word,
    acts: &ClientStep,
)
    ensures { sessions.new.items ≡ commanded_sessions sessions.old.items session (session_of sessions.old.items session) running place word acts.now }
{
    let Some(number) = session else {
        return;
    };
    if let Some(at) = place_of(sessions.len(), u64::from(number)) {
        commanded(&mut sessions[at], running, place, word, acts);
    }
}

/// Puts a command's own operation behind the others, as its first step leaves it. It comes without
/// its value: the local content gets a further owner only for a close that goes on.
fn begin(
    alloc: Global,
    ops: &mut Vec<Op>,
    op: Op,
    client: &Client,
    step: u64,
    acts: &ClientStep,
) -> Result<(), AllocError>
    ensures { OnOk result (ops.new.items ≡ ops.old.items ++ op_after (record op { value = value_at_begin client.now op.word op.file acts.now.ended }) client.now [] step acts.now ∷ []) }
{
    let mut own = op;
    own.value = value_at_begin(client, own.word, own.file, &acts.ended)?;
    ops::note(alloc, &mut own, client, &Vec::new(alloc), step, acts)?;
    ops.push(own)?;
    Ok(())
}

/// The number of the next step, and this client's number in 32 bits.
fn step_and_number(steps: u64, client: u64) -> Result<(u64, u32), AllocError>
    ensures { IfOk result (λ both. both ≡ (steps + 1, client)) }
{
    let step = count_on(steps, 1)?;
    let number = short_number(client)?;
    Ok((step, number))
}

/// The operation that a command begins, without its value.
fn begun_by(number: u32, step: u64, command: &Command) -> Op
    ensures { result ≡ begun number (word_of command.now) (file_of command.now) [] step }
{
    let value = SharedBytes::empty();
    ops::begun(number, word_of(command), file_of(command), value, step)
}

/// The client at this place does what it is told to.
fn does_at(
    alloc: Global,
    core: &mut Core,
    place: usize,
    now: u64,
    command: Command,
) -> Result<CoreStep, AllocError>
    requires { place < length core.old.seats.items }
    ensures { IfOk result (λ t. core_step_of core.new t ≡ does (core_of core.old) (place + 1) now command (slice_get core.old.seats.items place)) }
{
    let (step, number) = match step_and_number(core.steps, place as u64 + 1) {
        Ok(both) => both,
        Err(error) => {
            drop(command);
            return Err(error);
        }
    };
    let op = begun_by(number, step, &command);
    let word = op.word;
    let own = core.ops.len();
    let seat = &mut core.seats[place];
    let session = seat.session();
    let running = seat.place();
    let acts = seat.does(alloc, command, now, own)?;
    command_session(&mut core.sessions, session, running, own, word, &acts);
    let done = begin(alloc, &mut core.ops, op, seat.client(), step, &acts);
    core.steps = step;
    match done {
        Ok(()) => Ok(CoreStep::acted(alloc, Loss::Nothing, session, acts)),
        Err(error) => Err(error),
    }
}

impl Core {
    /// A client does what it is told to, at a reading of its clock in milliseconds, if there is one of
    /// this number.
    pub fn does(
        &mut self,
        alloc: Global,
        client: u64,
        now: u64,
        command: Command,
    ) -> Result<CoreStep, AllocError>
        ensures { IfOk result (λ t. core_step_of self.new t ≡ happens (core_of self.old) (Does client now command)) }
    {
        match place_of(self.seats.len(), client) {
            Some(place) => does_at(alloc, self, place, now, command),
            None => {
                drop(command);
                Ok(CoreStep::quiet(alloc))
            }
        }
    }
}
