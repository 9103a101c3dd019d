//! A client joins. `joins` in `specs/Core.antt` says what that makes of the two ends.

ghost use Rattle.std.specs.Prelude.{◌≡◌, IfOk, OnOk};
ghost use Rattle.server_core.specs.Step.{server_step};
ghost use Rattle.server_core.specs.declared.event.Event.TheVariants as event;
ghost use Rattle.server_rules.specs.declared.told.Told.TheVariants as told;
ghost use Rattle.trace_ends.specs.Core.{happens, Event.Joins, Event.RawJoins};
ghost use Rattle.trace_ends.specs.View.{core_of, core_step_of};

use crate::core_step::{CoreStep, Loss};
use crate::world_core::{Core, count_on};
use server_core::event::{Event, drop_step};
use server_core::server::Server;
use server_rules::told::Told;
use session_rules::numbers::place_of;
use session_rules::session::Session;
use std::alloc::{AllocError, Global};

/// What the server tells a client that connects. A server in running out of memory can tell
/// nothing.
fn connect(alloc: Global, server: &mut Server) -> Result<Told, AllocError>
    ensures server { OnOk result ((server_step server.old event.Connect).0 ≡ server.new) }
    ensures told { IfOk result (λ told. (server_step server.old event.Connect).1.told ≡ told) }
{
    let step = server.step_unkept(alloc, Event::Connect);
    let told = step.told;
    let missed = step.missed;
    drop_step(step);
    if missed {
        return Err(AllocError);
    }
    Ok(told)
}

impl Core {
    /// A client joins, if there is one of this number: a step of the server, and one of its own. The
    /// one error is running out of memory, as of each event: the two ends may be left half-way then.
    pub fn joins(&mut self, alloc: Global, client: u64) -> Result<CoreStep, AllocError>
        ensures { IfOk result (λ t. core_step_of self.new t ≡ happens (core_of self.old) (Joins client)) }
    {
        let Some(place) = place_of(self.seats.len(), client) else {
            return Ok(CoreStep::quiet(alloc));
        };
        self.steps = count_on(self.steps, 2)?;
        match connect(alloc, &mut self.server)? {
            Told::Session(made) => {
                self.seats[place].joins(alloc, made);
                let session = Session::new(alloc, client);
                self.sessions.push(session)?;
                self.came.push(0)?;
                Ok(CoreStep::losing(alloc, Loss::Made))
            }
            _ => Ok(CoreStep::quiet(alloc)),
        }
    }

    /// A session is made that is no client's: a step of the server.
    pub fn raw_joins(&mut self, alloc: Global) -> Result<CoreStep, AllocError>
        ensures { IfOk result (λ t. core_step_of self.new t ≡ happens (core_of self.old) RawJoins) }
    {
        self.steps = count_on(self.steps, 1)?;
        match connect(alloc, &mut self.server)? {
            Told::Session(_) => {
                let session = Session::raw(alloc);
                self.sessions.push(session)?;
                self.came.push(0)?;
                Ok(CoreStep::losing(alloc, Loss::Made))
            }
            _ => Ok(CoreStep::quiet(alloc)),
        }
    }
}
