//! The calls of the callback program: `called` of `specs/Step.antt`. They are answered at any moment, whatever
//! is under way.

ghost use Rattle.std.specs.Prelude.{◌≡◌, false};
ghost use Rattle.client_state.specs.Counting.{sends_one};
ghost use Rattle.client_state.specs.View.{state_of, IsSound};
ghost use Rattle.open_close.specs.Step.{recalls, called};
ghost use Rattle.wire.specs.declared.message.Body.TheVariants as body;
ghost use Rattle.wire.specs.declared.message.Message.TheVariants as message;
ghost use Rattle.xdr_codec.specs.Handle.{file_of};

use client_state::parts;
use client_state::state::ClientState;
use client_state::step::ClientStep;
use hash_calls::message::Back;
use std::alloc::Global;
use wire::message::{Body, Message};
use xdr_codec::handle::Handle;

/// What is noted of a file goes, if the handle names one. It takes no memory.
fn recall(state: &mut ClientState, handle: &Handle)
    requires { IsSound state.old }
    ensures rest { state_of state.new ≡ recalls (state_of state.old) (file_of handle.now) }
    ensures sound { IsSound state.new }
{
    match handle.file_of() {
        Some(file) => state.drop_note(file),
        None => {}
    }
}

/// An answer goes out, and nothing else is done.
fn answers(alloc: Global, xid: u32, answer: Back) -> ClientStep
    ensures { result ≡ sends_one (message.Answer xid (body.Back answer)) 0 }
{
    parts::sends_one(alloc, Message::Answer(xid, Body::Back(answer)), 0)
}

/// A call. One of the callback program is answered, and what is noted of a file goes where a RECALL asks for its
/// lease back. It takes no memory.
pub fn called(alloc: Global, state: &mut ClientState, xid: u32, body: &Body) -> ClientStep
    requires { IsSound state.old }
    ensures ok { called (state_of state.old) xid body.now ≡ (state_of state.new, result) }
    ensures done { result.missed ≡ false }
    ensures sound { IsSound state.new }
{
    match body {
        Body::Back(Back::Recall(handle)) => {
            recall(state, handle);
            answers(alloc, xid, Back::RecallAnswer)
        }
        Body::Back(Back::Null) => answers(alloc, xid, Back::NullAnswer),
        _ => parts::nothing_done(alloc),
    }
}
