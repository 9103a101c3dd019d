//! The world's fields, and events in it: a step of the ends, and what it sends put on its way.
//! `specs/World.antt` says what an event makes of a world.

ghost use Rattle.std.specs.Prelude.{◌≡◌, ◌++◌, map, Some, None, if◌then◌else◌, IfOk, OnOk};
ghost use Rattle.register_model.specs.Raw.{op_of};
ghost use Rattle.trace_ends.specs.Core.{happens};
ghost use Rattle.trace_replay.specs.World.{start, routed, happened, adjusts, raw_put, history_of};
ghost use Rattle.trace_ends.specs.View.{core_of, core_step_of};
ghost use Rattle.trace_replay.specs.WorldView.{event_of, taken_at, world_of, IsEventBounded, IsEndBounded};

use crate::opening::{OpeningFile, build_all};
use crate::sending::{down_put, raw_put_in};
use crate::stage::Stage;
use crate::wire_loss::lose;
use command_text::command::Command;
use lb_base::items::{Bytes, Items};
use register_model::history::History;
use register_model::op::Op;
use register_model::raw::Raw;
use session_rules::wire::Wire;
use std::alloc::{AllocError, Global};
use trace_ends::adjusting::{Adjustment, adjust};
use trace_ends::core_step::CoreStep;
use trace_ends::sending::up_put;
use trace_ends::world_core::Core;

/// A world's fields.
pub struct WorldState {
    pub stage: Stage,
    /// The files that the trace opens with.
    pub opening: Vec<OpeningFile>,
    /// The bytes of their contents together.
    pub size: u64,
    pub core: Core,
    /// The bytes of each session that was ever made, by its number.
    pub wires: Vec<Wire>,
}

// Written by hand, it is proved here alone; derived, each crate above would prove how each part is
// dropped.
impl Drop for WorldState {
    fn drop(self) {
        let WorldState {
            stage: _,
            opening,
            size: _,
            core,
            wires,
        } = self;
        drop(opening);
        drop(core);
        drop(wires);
    }
}

/// What happens at the two ends, where a line asks for it by itself and no bytes bring it. Clients and
/// sessions are numbered from 1; `now` is a reading of the clock of the end that acts.
#[derive(Drop)]
pub enum Event {
    Joins(u64),
    Does {
        client: u64,
        now: u64,
        command: Command,
    },
    Settles(u64),
    Cuts(u64),
    Hangs(u64),
    RawJoins,
}

/// The step of the ends in which this happens.
fn step_of(alloc: Global, core: &mut Core, event: Event) -> Result<CoreStep, AllocError>
    requires { IsEventBounded event }
    ensures { IfOk result (λ t. core_step_of core.new t ≡ happens (core_of core.old) (event_of event)) }
{
    match event {
        Event::Joins(client) => core.joins(alloc, client),
        Event::Does {
            client,
            now,
            command,
        } => core.does(alloc, client, now, command),
        Event::Settles(now) => core.settles(alloc, now),
        Event::Cuts(client) => core.cuts(alloc, client),
        Event::Hangs(session) => core.hangs(alloc, session),
        Event::RawJoins => core.raw_joins(alloc),
    }
}

/// An end that takes records.
#[derive(Clone, Copy)]
pub enum End {
    /// The server.
    Server,
    /// The client of the record's session.
    Client,
}

/// The step of an end in which it takes a record of a session, at a reading of its clock.
fn taken_by(
    alloc: Global,
    core: &mut Core,
    end: End,
    session: u64,
    now: u64,
    bytes: &[u8],
) -> Result<CoreStep, AllocError>
    requires { IsEndBounded end now }
    ensures { IfOk result (λ t. core_step_of core.new t ≡ happens (core_of core.old) (taken_at end session now bytes.now)) }
{
    match end {
        End::Server => core.serves(alloc, session, now, bytes),
        End::Client => core.hears(alloc, session, now, bytes),
    }
}

/// The changes by sessions that are no client's, where there is such a session.
fn raws_if(has_raw: bool, raws: Vec<Raw>) -> Option<Items<Raw>>
    ensures { result ≡ (if has_raw then Some raws.items else None) }
{
    if has_raw {
        Some(Items::from_vec(raws))
    } else {
        None
    }
}

/// Puts the changes by sessions that are no client's behind the operations of clients.
fn put_raws(alloc: Global, ops: &mut Vec<Op>, raws: &[Raw]) -> Result<(), AllocError>
    ensures { OnOk result (ops.new.items ≡ ops.old.items ++ map op_of raws.now) }
{
    for raw in raws {
        ops.push(raw.op(alloc)?)?;
    }
    Ok(())
}

impl WorldState {
    /// The world before the first line. The one error is running out of memory.
    pub fn new(alloc: Global) -> Result<WorldState, AllocError>
        ensures { IfOk result (λ world. world_of world ≡ start) }
    {
        let core = Core::new(alloc)?;
        Ok(WorldState {
            stage: Stage::Version,
            opening: Vec::new(alloc),
            size: 0,
            core,
            wires: Vec::new(alloc),
        })
    }

    /// The history that the world has come to. The ends are dropped before the bytes of the opening
    /// files are made. The one error is running out of memory.
    pub fn history(self, alloc: Global) -> Result<History, AllocError>
        ensures { IfOk result (λ history. history ≡ history_of (world_of self)) }
    {
        let WorldState {
            stage: _,
            opening,
            size: _,
            core,
            wires,
        } = self;
        drop(wires);
        let (lbfs, has_raw) = (core.lbfs, core.has_raw());
        let (mut ops, raws, steps) = core.history();
        let opening = build_all(alloc, opening.as_slice())?;
        put_raws(alloc, &mut ops, raws.as_slice())?;
        let (ops, raws) = (Items::from_vec(ops), raws_if(has_raw, raws));
        Ok(History::new(lbfs, opening, ops, raws, steps))
    }

    /// A session that is no client's sends bytes, which vanish where the server has seen it lost. The one
    /// error is running out of memory.
    pub fn raw_put(&mut self, session: u64, bytes: Bytes) -> Result<(), AllocError>
        ensures { OnOk result (world_of self.new ≡ raw_put (world_of self.old) session bytes) }
    {
        raw_put_in(
            self.core.sessions.as_slice(),
            &mut self.wires,
            session,
            bytes,
        )
    }

    /// What an event dropped is gone, and what it sent is on its way.
    fn routes(&mut self, alloc: Global, step: &CoreStep) -> Result<(), AllocError>
        ensures { OnOk result (world_of self.new ≡ routed (world_of self.old) (core_step_of self.old.core step.now)) }
    {
        lose(alloc, &mut self.wires, step.loss)?;
        let sessions = self.core.sessions.as_slice();
        up_put(alloc, sessions, &mut self.wires, step.session, &step.up)?;
        down_put(alloc, sessions, &mut self.wires, &step.down)
    }

    /// What a line asks for by itself happens.
    pub fn happens(&mut self, alloc: Global, event: Event) -> Result<(), AllocError>
        requires { IsEventBounded event }
        ensures { OnOk result (world_of self.new ≡ happened (world_of self.old) (event_of event)) }
    {
        let step = step_of(alloc, &mut self.core, event)?;
        self.routes(alloc, &step)
    }

    /// An end takes a record of a session, at a reading of its clock.
    pub fn takes(
        &mut self,
        alloc: Global,
        end: End,
        session: u64,
        now: u64,
        bytes: &[u8],
    ) -> Result<(), AllocError>
        requires { IsEndBounded end now }
        ensures { OnOk result (world_of self.new ≡ happened (world_of self.old) (taken_at end session now bytes.now)) }
    {
        let step = taken_by(alloc, &mut self.core, end, session, now, bytes)?;
        self.routes(alloc, &step)
    }

    /// An index or a cache is changed, and nothing else.
    pub fn adjusts(&mut self, alloc: Global, adjustment: Adjustment) -> Result<(), AllocError>
        ensures { OnOk result (world_of self.new ≡ adjusts (world_of self.old) adjustment) }
    {
        let adjusted = adjust(alloc, &mut self.core, &adjustment);
        drop(adjustment);
        adjusted
    }
}
