//! What is said in a step (`specs/Steps.antt`, `specs/Recalling.antt`). None of this but `recall` takes
//! memory.

ghost use Rattle.std.specs.Prelude.{◌≡◌, [], ◌∷◌, IfOk, true, false};
ghost use Rattle.server_rules.specs.declared.told.Told.TheVariants as told;
ghost use Rattle.server_core.specs.Recalling.{recall_sent};
ghost use Rattle.server_core.specs.Steps.{sends, to, told_if};
ghost use Rattle.wire.specs.declared.message.Message.TheVariants as message;
ghost use Rattle.wire.specs.declared.message.RpcRefusal.TheVariants as refusal;

use crate::event::{Sent, ServerStep};
use callback_core::back_calls::Asked;
use hash_calls::message::{Back, Lb};
use send_list::SendList;
use server_rules::told::{self, Told};
use std::alloc::{AllocError, Global};
use wire::message::{Body, Message, RpcRefusal};
use xdr_codec::handle::Handle;

/// No message, and this is told.
pub fn tell(alloc: Global, told: Told) -> ServerStep
    ensures { result ≡ record { send = []; told = told; entries = 0; missed = false } }
{
    ServerStep {
        send: SendList::none(alloc),
        told,
        entries: 0,
        missed: false,
    }
}

/// Nothing at all.
pub fn nothing(alloc: Global) -> ServerStep
    ensures { result ≡ sends [] }
{
    tell(alloc, Told::Nothing)
}

/// One message, and nothing else.
fn one(alloc: Global, session: u32, message: Message) -> ServerStep
    ensures { result ≡ to session message }
{
    ServerStep {
        send: SendList::one(alloc, Sent { session, message }),
        told: Told::Nothing,
        entries: 0,
        missed: false,
    }
}

/// These messages, and nothing else.
pub fn send_all(send: SendList<Sent>) -> ServerStep
    ensures { result ≡ sends send }
{
    ServerStep {
        send,
        told: Told::Nothing,
        entries: 0,
        missed: false,
    }
}

/// The RECALL of a lease, under its xid. The one error is running out of memory.
pub fn recall(alloc: Global, asked: &Asked) -> Result<Sent, AllocError>
    ensures { IfOk result (λ s. s ≡ recall_sent asked.now) }
{
    let handle = Handle::of_file(alloc, asked.file)?;
    Ok(Sent {
        session: asked.session,
        message: Message::Call(asked.xid, Body::Back(Back::Recall(handle))),
    })
}

/// The answer to a call, and nothing else.
pub fn answer(alloc: Global, session: u32, xid: u32, body: Body) -> ServerStep
    ensures { result ≡ to session (message.Answer xid body) }
{
    one(alloc, session, Message::Answer(xid, body))
}

/// The refusal of a call, and nothing else.
pub fn refuse(alloc: Global, session: u32, xid: u32, why: RpcRefusal) -> ServerStep
    ensures { result ≡ to session (message.Refuse xid why) }
{
    one(alloc, session, Message::Refuse(xid, why))
}

/// What is said of a call of LBFS that was looked at.
pub fn answer_if(alloc: Global, session: u32, xid: u32, told: Option<Lb>) -> ServerStep
    ensures { result ≡ told_if session xid told }
{
    match told {
        Some(told) => answer(alloc, session, xid, Body::Lb(told)),
        None => refuse(alloc, session, xid, RpcRefusal::ProcUnavail),
    }
}

/// The step that tells a session what became of its change.
pub fn tell_change(alloc: Global, session: u32, xid: u32, entries: u32, body: Body) -> ServerStep
    ensures { result ≡ record { send = record { session = session; message = message.Answer xid body } ∷ []; told = told.Settled session xid; entries = entries; missed = false } }
{
    let mut step = answer(alloc, session, xid, body);
    step.told = told::settled(session, xid);
    step.entries = entries;
    step
}

/// The refusal of a call that memory runs out for.
pub fn miss_call(alloc: Global, session: u32, xid: u32) -> ServerStep
    ensures { result ≡ record (to session (message.Refuse xid refusal.SystemErr)) { missed = true } }
{
    let mut step = refuse(alloc, session, xid, RpcRefusal::SystemErr);
    step.missed = true;
    step
}

/// What a connection is told that memory runs out for.
pub fn miss_connection(alloc: Global) -> ServerStep
    ensures { result ≡ record (sends []) { told = told.Memory; missed = true } }
{
    let mut step = tell(alloc, Told::Memory);
    step.missed = true;
    step
}
