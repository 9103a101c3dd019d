//! Messages as bytes on their way, each as a record of one fragment. `bytes_of` in
//! `specs/Wires.antt` says which bytes they are.

ghost use Rattle.std.specs.Prelude.{◌≡◌, ◌++◌, [], ◌∷◌, OnOk};
ghost use Rattle.trace_ends.specs.Wires.{bytes_of};

use send_list::SendList;
use std::alloc::{AllocError, Global};
use trace_wires::queue::Queue;
use wire::message::Message;
use wire::spell::spell_marked;

/// Puts one message on its way. Neither end sends more than a record may have, so the one error that
/// can come is running out of memory.
pub fn put_one(alloc: Global, queue: &mut Queue, message: &Message) -> Result<(), AllocError>
    ensures { OnOk result (queue.new ≡ queue.old ++ bytes_of (message.now ∷ [])) }
{
    match spell_marked(alloc, message) {
        Ok(record) => queue.put(record),
        Err(_) => Err(AllocError),
    }
}

/// Puts messages on their way, in order.
fn put_rest(alloc: Global, queue: &mut Queue, messages: &[Message]) -> Result<(), AllocError>
    ensures { OnOk result (queue.new ≡ queue.old ++ bytes_of messages.now) }
{
    for message in messages {
        put_one(alloc, queue, message)?;
    }
    Ok(())
}

/// Puts the messages of a step on their way, in order.
pub fn put_each(
    alloc: Global,
    queue: &mut Queue,
    messages: &SendList<Message>,
) -> Result<(), AllocError>
    ensures { OnOk result (queue.new ≡ queue.old ++ bytes_of messages.now) }
{
    let (first, rest) = messages.as_pair();
    if let Some(message) = first {
        put_one(alloc, queue, message)?;
    }
    put_rest(alloc, queue, rest)
}
