//! What is sent on a session put on its way. `specs/Wires.antt` says where it goes.

ghost use Rattle.std.specs.Prelude.{◌≡◌, OnOk};
ghost use Rattle.trace_ends.specs.Numbers.{numbered};
ghost use Rattle.trace_ends.specs.Wires.{up_put, message_put_in};

use crate::outbox::{put_each, put_one};
use send_list::SendList;
use session_rules::session::Session;
use session_rules::ways::{way_down, way_up};
use session_rules::wire::Wire;
use std::alloc::{AllocError, Global};
use wire::message::Message;

/// Puts the messages that a client sends on their way up its newest session, unless the server saw it
/// lost.
pub fn up_put(
    alloc: Global,
    sessions: &[Session],
    wires: &mut Vec<Wire>,
    number: Option<u32>,
    messages: &SendList<Message>,
) -> Result<(), AllocError>
    ensures { OnOk result (wires.new.items ≡ up_put sessions.now wires.old.items number messages.now) }
{
    let Some(number) = number else {
        return Ok(());
    };
    match way_up(sessions, wires.len(), u64::from(number)) {
        Some(place) => {
            let wire = &mut wires[place];
            put_each(alloc, &mut wire.up, messages)
        }
        None => Ok(()),
    }
}

/// Puts a message of the server on its way down its session, unless the client saw it lost.
pub fn message_put_in(
    alloc: Global,
    sessions: &[Session],
    wires: &mut Vec<Wire>,
    number: u32,
    message: &Message,
) -> Result<(), AllocError>
    ensures { OnOk result (wires.new.items ≡ message_put_in wires.old.items number message.now (numbered sessions.now number) (numbered wires.old.items number)) }
{
    match way_down(sessions, wires.len(), u64::from(number)) {
        Some(place) => {
            let wire = &mut wires[place];
            put_one(alloc, &mut wire.down, message)
        }
        None => Ok(()),
    }
}
