//! What is sent put on its way: what the server sends, each message down its session, and bytes that
//! are no client's up theirs. `specs/World.antt` says where it goes.

ghost use Rattle.std.specs.Prelude.{◌≡◌, OnOk};
ghost use Rattle.trace_ends.specs.Numbers.{numbered};
ghost use Rattle.trace_replay.specs.World.{down_put_in, down_put, raw_put_in};

use lb_base::items::Bytes;
use send_list::SendList;
use server_core::event::Sent;
use session_rules::session::Session;
use session_rules::ways::way_up;
use session_rules::wire::Wire;
use std::alloc::{AllocError, Global};
use trace_ends::sending;

/// Puts a message of the server on its way down its session, unless the client saw it lost.
#[tactic(auto, using(crate::proofs::SentDown::message_in))]
fn down_put_in(
    alloc: Global,
    sessions: &[Session],
    wires: &mut Vec<Wire>,
    sent: &Sent,
) -> Result<(), AllocError>
    ensures { OnOk result (wires.new.items ≡ down_put_in wires.old.items sent.now (numbered sessions.now sent.now.session) (numbered wires.old.items sent.now.session)) }
{
    sending::message_put_in(alloc, sessions, wires, sent.session, &sent.message)
}

/// Puts messages of the server on their way, in order.
fn put_rest(
    alloc: Global,
    sessions: &[Session],
    wires: &mut Vec<Wire>,
    sent: &[Sent],
) -> Result<(), AllocError>
    ensures { OnOk result (wires.new.items ≡ down_put sessions.now wires.old.items sent.now) }
{
    for one in sent {
        down_put_in(alloc, sessions, wires, one)?;
    }
    Ok(())
}

/// Puts the messages that the server sends on their way down, each its session.
pub fn down_put(
    alloc: Global,
    sessions: &[Session],
    wires: &mut Vec<Wire>,
    sent: &SendList<Sent>,
) -> Result<(), AllocError>
    ensures { OnOk result (wires.new.items ≡ down_put sessions.now wires.old.items sent.now) }
{
    let (first, rest) = sent.as_pair();
    if let Some(one) = first {
        down_put_in(alloc, sessions, wires, one)?;
    }
    put_rest(alloc, sessions, wires, rest)
}

/// Puts bytes of a session that is no client's on their way up, unless the server saw it lost.
pub fn raw_put_in(
    sessions: &[Session],
    wires: &mut Vec<Wire>,
    number: u64,
    bytes: Bytes,
) -> Result<(), AllocError>
    ensures { OnOk result (wires.new.items ≡ raw_put_in wires.old.items number bytes (numbered sessions.now number) (numbered wires.old.items number)) }
{
    match way_up(sessions, wires.len(), number) {
        Some(place) => {
            let wire = &mut wires[place];
            wire.put_up(bytes)
        }
        None => Ok(()),
    }
}
