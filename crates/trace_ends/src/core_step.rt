//! What an event leaves to be done with the bytes on their way. `CoreStep` in `specs/Core.antt` says
//! what that is.

ghost use Rattle.std.specs.Prelude.{◌≡◌, [], None};
ghost use Rattle.client_state.specs.declared.step.ClientStep.{ClientStep as Acts};
ghost use Rattle.server_core.specs.declared.event.ServerStep.{ServerStep as Served};
ghost use Rattle.trace_ends.specs.declared.core_step.Loss.TheVariants as losses;

use client_state::step::ClientStep;
use send_list::SendList;
use server_core::event::{Sent, ServerStep};
use std::alloc::Global;
use wire::message::Message;

/// What becomes of the bytes on their way, before more are sent.
#[derive(Clone, Copy)]
pub enum Loss {
    /// They stay.
    Nothing,
    /// A session is made, on which none are.
    Made,
    /// Those on their way down this session are dropped.
    DownOf(u32),
    /// Those on their way up this session are dropped.
    UpOf(u32),
}

/// What an event drops, and sends.
pub struct CoreStep {
    pub loss: Loss,
    /// The session on which the messages `up` are sent.
    pub session: Option<u32>,
    /// The messages that a client sends, in order.
    pub up: SendList<Message>,
    /// The messages that the server sends, each to its session, in order.
    pub down: SendList<Sent>,
}

// Written by hand, it is proved here alone; derived, each crate above would prove how each part is let
// go.
impl Drop for CoreStep {
    fn drop(self) {
        let CoreStep {
            loss: _,
            session: _,
            up,
            down,
        } = self;
        drop(up);
        drop(down);
    }
}

impl CoreStep {
    /// Nothing is sent. It takes no memory.
    pub fn losing(alloc: Global, loss: Loss) -> CoreStep
        ensures { result ≡ record { loss = loss; session = None; up = []; down = [] } }
    {
        CoreStep {
            loss,
            session: None,
            up: SendList::none(alloc),
            down: SendList::none(alloc),
        }
    }

    /// Nothing is dropped or sent. It takes no memory.
    pub fn quiet(alloc: Global) -> CoreStep
        ensures { result ≡ record { loss = losses.Nothing; session = None; up = []; down = [] } }
    {
        CoreStep::losing(alloc, Loss::Nothing)
    }

    /// What a client did in a step is sent on its session.
    pub fn acted(alloc: Global, loss: Loss, session: Option<u32>, acts: ClientStep) -> CoreStep
        ensures { result ≡ record { loss = loss; session = session; up = acts.send; down = [] } }
    {
        let (send, _ended) = acts.into_parts();
        CoreStep {
            loss,
            session,
            up: send,
            down: SendList::none(alloc),
        }
    }

    /// What the server did in a step is sent.
    pub fn served(alloc: Global, step: ServerStep) -> CoreStep
        ensures { result ≡ record { loss = losses.Nothing; session = None; up = []; down = step.send } }
    {
        let ServerStep { send, .. } = step;
        CoreStep {
            loss: Loss::Nothing,
            session: None,
            up: SendList::none(alloc),
            down: send,
        }
    }
}
