//! What happens to a server, and what it does then. `specs/Step.antt` says what it does.

use send_list::SendList;
use server_rules::told::Told;
use wire::message::Message;

/// What happens to a server.
#[derive(Drop)]
pub enum Event {
    /// A connection is made.
    Connect,
    /// A session's message comes, at a reading of the server's clock in milliseconds.
    Got {
        session: u32,
        message: Message,
        now: u64,
    },
    /// A pending change may be made, at a reading of the server's clock in milliseconds.
    Settle {
        now: u64,
    },
    /// A session's connection is lost.
    Hang {
        session: u32,
    },
}

/// A message to a session.
#[derive(Drop)]
pub struct Sent {
    pub session: u32,
    pub message: Message,
}

/// What a server does in one step.
#[derive(Drop)]
pub struct ServerStep {
    /// The messages that it sends, in order.
    pub send: SendList<Sent>,
    pub told: Told,
    /// How many entries it adds to the journal.
    pub entries: u32,
    /// Whether memory ran out. A call is then answered SYSTEM_ERR, a connection is told so, and
    /// nothing else is done; or all is done but that places are missing in the index of chunks.
    pub missed: bool,
}

/// Drops a message. Callers above call this, so that each proves one call, and not how every kind of
/// message goes.
pub fn drop_message(message: Message) {
    drop(message);
}

/// Drops a step whose messages nobody wants.
pub fn drop_step(step: ServerStep) {
    drop(step);
}
