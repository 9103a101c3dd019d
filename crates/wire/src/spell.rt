//! The record of a message. `specs/Message.antt` states it.

ghost use Rattle.std.specs.Prelude.{◌≡◌, ◌++◌, ◌<◌, ◌≤◌, ◌^◌, length, drop, IfOk, OnOk, IfErr};
ghost use Rattle.limits.specs.declared.TheConstants.{RECORD_MOST};
ghost use Rattle.rpc_record.specs.Records.{marked};
ghost use Rattle.rpc_record.specs.declared.refusal.MarkError.TheVariants as mark_errors;
ghost use Rattle.wire.specs.Message.{message_spell, body_spell, refusal_head, call_head, no_auth, program_of, body_version, IsShort, IsSpelled, IsShortBody, BodyFits, RefusalFits};
ghost use Rattle.rpc_record.specs.Header.{front_form, call_form};

use crate::message::{Body, Message, Program, RPC_VERSION, RpcRefusal};
use lb_base::items::Bytes;
use rpc_record::header::{Accept, Auth, CallHead, Denial, Direction, Front, ReplyHead, Versions};
use rpc_record::marking::mark_in_place;
use rpc_record::refusal::MarkError;
use std::alloc::{AllocError, Global};
use xdr_codec::item::Item;
use xdr_codec::program::ProgramBody;
use xdr_codec::writer::Writer;

/// The record of a message, with no authentication (flavor 0 and no body).
///
/// A call that can't be taken has none, and gives no bytes: what is sent in answer to `Unfit` is its
/// refusal as `Refuse`. Lists and byte strings of the message must be within their maxima for the
/// other end to read it. Record marking takes at most `RECORD_MOST` bytes.
pub fn spell(alloc: Global, message: &Message) -> Result<Bytes, AllocError>
    ensures spelled { IfOk result (λ bytes. bytes ≡ message_spell message.now) }
    ensures fits { OnOk result (IsShort message.now → IsSpelled message.now) }
{
    let mut writer = Writer::new(alloc);
    put(alloc, &mut writer, message)?;
    Ok(writer.done())
}

/// Four bytes, in whose place a mark is to stand.
fn room_for_mark(alloc: Global) -> Result<Writer, AllocError>
    ensures { IfOk result (λ writer. length writer ≡ 4) }
{
    let mut writer = Writer::new(alloc);
    writer.u32(0)?;
    Ok(writer)
}

/// Four bytes, and the record of a message behind them.
fn spell_behind(alloc: Global, message: &Message) -> Result<Vec<u8>, AllocError>
    ensures long { IfOk result (λ bytes. 4 ≤ length bytes.items) }
    ensures spelled { IfOk result (λ bytes. drop 4 bytes.items ≡ message_spell message.now) }
    ensures fits { OnOk result (IsShort message.now → IsSpelled message.now) }
{
    let mut writer = room_for_mark(alloc)?;
    put(alloc, &mut writer, message)?;
    Ok(writer.done().into_vec())
}

/// The record of a message as it is sent: what `spell` gives, marked as its only fragment. It is
/// spelled where it is sent from, behind its header, so that none of its bytes is copied again.
///
/// More than `RECORD_MOST` bytes are refused as `TooBig`; else only memory can run out.
pub fn spell_marked(alloc: Global, message: &Message) -> Result<Bytes, MarkError>
    ensures marked { IfOk result (λ bytes. bytes ≡ marked (message_spell message.now)) }
    ensures within { OnOk result (length (message_spell message.now) ≤ RECORD_MOST) }
    ensures fits { OnOk result (IsShort message.now → IsSpelled message.now) }
    ensures refused { IfErr result (λ e. length (message_spell message.now) ≤ RECORD_MOST → e ≡ mark_errors.Memory) }
{
    let mut bytes = spell_behind(alloc, message)?;
    mark_in_place(&mut bytes)?;
    Ok(Bytes::from_vec(bytes))
}

fn put(alloc: Global, writer: &mut Writer, message: &Message) -> Result<(), AllocError>
    ensures spelled { OnOk result (writer.new ≡ writer.old ++ message_spell message.now) }
    ensures fits { OnOk result (IsShort message.now → IsSpelled message.now) }
{
    match message {
        Message::Call(xid, body) => {
            put_front(writer, *xid, Direction::Call)?;
            writer.u32(RPC_VERSION)?;
            put_call(alloc, writer, body)?;
            put_body(writer, body)
        }
        Message::Answer(xid, body) => {
            put_front(writer, *xid, Direction::Reply)?;
            let head = ReplyHead::Accepted(no_auth(alloc), Accept::Success);
            head.write(writer)?;
            put_body(writer, body)
        }
        Message::Refuse(xid, why) => {
            put_front(writer, *xid, Direction::Reply)?;
            refusal_head(alloc, *why).write(writer)
        }
        Message::Unfit(_, _) => Ok(()),
    }
}

fn put_front(writer: &mut Writer, xid: u32, direction: Direction) -> Result<(), AllocError>
    ensures spelled { OnOk result (writer.new ≡ writer.old ++ front_form.spell (record { xid = xid; direction = direction })) }
    ensures fits { xid < 2 ^ 32 }
{
    Front { xid, direction }.write(writer)
}

fn put_call(alloc: Global, writer: &mut Writer, body: &Body) -> Result<(), AllocError>
    ensures spelled { OnOk result (writer.new ≡ writer.old ++ call_form.spell (call_head no_auth no_auth (body_version body.now) (program_of body.now))) }
    ensures fits { body_version body.now < 2 ^ 32 }
{
    call_head(alloc, body.version(), body.program()).write(writer)
}

fn put_body(writer: &mut Writer, body: &Body) -> Result<(), AllocError>
    ensures spelled { OnOk result (writer.new ≡ writer.old ++ body_spell body.now) }
    ensures fits { OnOk result (IsShortBody body.now → BodyFits body.now) }
{
    match body {
        Body::Nfs(message) => message.write_in(writer),
        Body::Lb(message) => message.write_in(writer),
        Body::Back(message) => message.write_in(writer),
    }
}

/// No authentication.
fn no_auth(alloc: Global) -> Auth
    ensures { result ≡ no_auth }
{
    Auth {
        flavor: 0,
        body: Bytes::new(alloc),
    }
}

fn call_head(alloc: Global, version: u32, program: Program) -> CallHead
    ensures value { result ≡ call_head no_auth no_auth version program }
    ensures fits { version < 2 ^ 32 }
{
    CallHead {
        program: program.number(),
        version,
        procedure: program.procedure(),
        cred: no_auth(alloc),
        verf: no_auth(alloc),
    }
}

fn refusal_head(alloc: Global, why: RpcRefusal) -> ReplyHead
    ensures value { result ≡ refusal_head no_auth why }
    ensures fits { RefusalFits why }
{
    let verf = no_auth(alloc);
    match why {
        RpcRefusal::ProgUnavail => ReplyHead::Accepted(verf, Accept::ProgUnavail),
        RpcRefusal::ProgMismatch { low, high } => {
            ReplyHead::Accepted(verf, Accept::ProgMismatch(Versions { low, high }))
        }
        RpcRefusal::ProcUnavail => ReplyHead::Accepted(verf, Accept::ProcUnavail),
        RpcRefusal::GarbageArgs => ReplyHead::Accepted(verf, Accept::GarbageArgs),
        RpcRefusal::SystemErr => ReplyHead::Accepted(verf, Accept::SystemErr),
        RpcRefusal::RpcMismatch { low, high } => {
            ReplyHead::Denied(Denial::RpcMismatch(Versions { low, high }))
        }
        RpcRefusal::AuthError(why) => ReplyHead::Denied(Denial::AuthError(why)),
    }
}
