//! Which message a record is. `specs/Parse.antt` states it as it is tested, and
//! `specs/Refused.antt` by what stands in the record.

ghost use Rattle.std.specs.Prelude.{◌≡◌, Ok, None, IfOk};
ghost use Rattle.wire.specs.Parse.{IsParsed, parse_of, parse_call, parse_call_body, parse_reply, replied, with_args, called, versioned, refusal_of, waiting};
ghost use Rattle.wire.specs.Message.{args_of, result_of, in_version};
ghost use Rattle.xdr_codec.specs.Format.{GivesAll, whole_at};

use crate::fault::{WireError, WireFault, garbage, not_rpc};
use crate::message::{
    BACK_PROGRAM, BACK_VERSION, Body, LBFS_LEAST, LBFS_PROGRAM, Message, NFS_PROGRAM, NFS_VERSION,
    Pending, Program, RPC_VERSION, RpcRefusal, Side, Waiting,
};
use hash_calls::message::{BackProc, LbIn, LbProc};
use nfs3_calls::message::NfsProc;
use rpc_record::header::{Accept, CallHead, Denial, Direction, Front, ReplyHead};
use std::alloc::{AllocError, Global};
use xdr_codec::fault::ReadError;
use xdr_codec::item::Item;
use xdr_codec::program::{read_args, read_results};
use xdr_codec::read_as;
use xdr_codec::reader::Reader;

/// The message that a record is, where these calls may come and these answers are waited for.
///
/// A record is tested in this order. Too short for an xid and a direction, or another direction:
/// `NotRpc`. A call: another version of RPC, `Unfit`; a header that ends early, or an
/// authentication item out of its grammar, `NotRpc`; a program that isn't served, its version, the
/// procedure, the arguments, `Unfit`. An answer: an xid under which nothing waits, `UnknownXid`;
/// outside its grammar, `Garbage`. Places count from the record's first byte.
pub fn parse(alloc: Global, bytes: &[u8], expected: &Waiting) -> Result<Message, WireError>
    ensures exact { IsParsed result (parse_of expected.now bytes.now) }
{
    let mut reader = Reader::new(bytes);
    match Front::read(alloc, &mut reader) {
        Err(error) => Err(not_rpc(error)),
        Ok(front) => match front.direction {
            Direction::Call => { call(alloc, expected.side, expected.lbfs, front.xid, &mut reader) }
            Direction::Reply => {
                let program = awaited(front.xid, expected.calls.as_slice());
                reply(alloc, expected.lbfs, front.xid, program, &mut reader)
            }
        },
    }
}

/// The message that a record is, or what is wrong with it, as `parse` says; the one error is
/// running out of memory.
pub fn message_of(
    alloc: Global,
    bytes: &[u8],
    expected: &Waiting,
) -> Result<Result<Message, WireFault>, AllocError>
    ensures told { IfOk result (λ message. message ≡ parse_of expected.now bytes.now) }
{
    match parse(alloc, bytes, expected) {
        Ok(message) => Ok(Ok(message)),
        Err(WireError::Fault(fault)) => Ok(Err(fault)),
        Err(WireError::Memory) => Err(AllocError),
    }
}

/// What waits under the xid.
fn awaited(xid: u32, calls: &[Pending]) -> Option<Program>
    ensures { result ≡ waiting xid calls.now }
{
    for pending in calls {
        if pending.xid == xid {
            return Some(pending.program);
        }
    }
    None
}

/// The procedure that was found, where the version is one of the program's that are served.
fn versioned(
    least: u32,
    most: u32,
    version: u32,
    found: Option<Program>,
) -> Result<Program, RpcRefusal>
    ensures { result ≡ versioned least most version found }
{
    if least <= version && version <= most {
        match found {
            Some(program) => Ok(program),
            None => Err(RpcRefusal::ProcUnavail),
        }
    } else {
        Err(RpcRefusal::ProgMismatch {
            low: least,
            high: most,
        })
    }
}

/// The program and procedure that a header names, where they are served; LBFS up to a version.
fn called(side: Side, lbfs: u32, head: &CallHead) -> Result<Program, RpcRefusal>
    ensures { result ≡ called side lbfs head.now }
{
    if side.serves_files() && head.program == NFS_PROGRAM {
        let found = NfsProc::of_number(head.procedure).map(Program::Nfs);
        return versioned(NFS_VERSION, NFS_VERSION, head.version, found);
    }
    if side.serves_files() && head.program == LBFS_PROGRAM {
        let found = LbProc::of_number_in(head.version, head.procedure).map(Program::Lb);
        return versioned(LBFS_LEAST, lbfs, head.version, found);
    }
    if side.serves_callbacks() && head.program == BACK_PROGRAM {
        let found = BackProc::of_number(head.procedure).map(Program::Back);
        return versioned(BACK_VERSION, BACK_VERSION, head.version, found);
    }
    Err(RpcRefusal::ProgUnavail)
}

/// A call, from the version of RPC on.
fn call(
    alloc: Global,
    side: Side,
    lbfs: u32,
    xid: u32,
    reader: &mut Reader,
) -> Result<Message, WireError>
    ensures { IsParsed result (parse_call side lbfs xid reader.old) }
{
    match reader.u32() {
        Err(error) => Err(not_rpc(error)),
        Ok(version) => {
            if version == RPC_VERSION {
                call_body(alloc, side, lbfs, xid, reader)
            } else {
                Ok(Message::Unfit(
                    xid,
                    RpcRefusal::RpcMismatch {
                        low: RPC_VERSION,
                        high: RPC_VERSION,
                    },
                ))
            }
        }
    }
}

/// A call behind the version of RPC.
fn call_body(
    alloc: Global,
    side: Side,
    lbfs: u32,
    xid: u32,
    reader: &mut Reader,
) -> Result<Message, WireError>
    ensures { IsParsed result (parse_call_body side lbfs xid reader.old) }
{
    match CallHead::read(alloc, reader) {
        Err(error) => Err(not_rpc(error)),
        Ok(head) => match called(side, lbfs, &head) {
            Err(refusal) => Ok(Message::Unfit(xid, refusal)),
            Ok(program) => arguments(alloc, xid, head.version, program, reader),
        },
    }
}

fn arguments(
    alloc: Global,
    xid: u32,
    version: u32,
    program: Program,
    reader: &mut Reader,
) -> Result<Message, WireError>
    ensures { IsParsed result (Ok (with_args xid (whole_at reader.old.at (args_of version program) reader.old.rest))) }
{
    match read_call(alloc, version, program, reader) {
        Ok(body) => Ok(Message::Call(xid, body)),
        Err(ReadError::Memory) => Err(WireError::Memory),
        Err(ReadError::Fault(_)) => Ok(Message::Unfit(xid, RpcRefusal::GarbageArgs)),
    }
}

/// The arguments of a procedure in a version of its program.
fn read_call(
    alloc: Global,
    version: u32,
    program: Program,
    reader: &mut Reader,
) -> Result<Body, ReadError>
    ensures { GivesAll result (whole_at reader.old.at (args_of version program) reader.old.rest) }
{
    match program {
        Program::Nfs(procedure) => read_as!(Body::Nfs, read_args(alloc, procedure, reader)),
        Program::Lb(procedure) => read_as!(
            Body::Lb,
            read_args(alloc, in_version(version, procedure), reader)
        ),
        Program::Back(procedure) => read_as!(Body::Back, read_args(alloc, procedure, reader)),
    }
}

/// What a procedure gave, of LBFS in a version.
fn read_result(
    alloc: Global,
    lbfs: u32,
    program: Program,
    reader: &mut Reader,
) -> Result<Body, ReadError>
    ensures { GivesAll result (whole_at reader.old.at (result_of lbfs program) reader.old.rest) }
{
    match program {
        Program::Nfs(procedure) => read_as!(Body::Nfs, read_results(alloc, procedure, reader)),
        Program::Lb(procedure) => read_as!(
            Body::Lb,
            read_results(alloc, in_version(lbfs, procedure), reader)
        ),
        Program::Back(procedure) => read_as!(Body::Back, read_results(alloc, procedure, reader)),
    }
}

fn in_version(lbfs: u32, procedure: LbProc) -> LbIn
    ensures { result ≡ in_version lbfs procedure }
{
    LbIn { lbfs, procedure }
}

/// An answer to what waits under its xid.
fn reply(
    alloc: Global,
    lbfs: u32,
    xid: u32,
    program: Option<Program>,
    reader: &mut Reader,
) -> Result<Message, WireError>
    ensures { IsParsed result (parse_reply lbfs xid program reader.old) }
{
    let Some(program) = program else {
        return Err(WireError::Fault(WireFault::UnknownXid { xid }));
    };
    match ReplyHead::read(alloc, reader) {
        Err(error) => Err(garbage(error)),
        Ok(head) => match refusal(&head) {
            None => answer(alloc, lbfs, xid, program, reader),
            Some(why) => match reader.end() {
                Err(error) => Err(garbage(error)),
                Ok(()) => Ok(Message::Refuse(xid, why)),
            },
        },
    }
}

fn answer(
    alloc: Global,
    lbfs: u32,
    xid: u32,
    program: Program,
    reader: &mut Reader,
) -> Result<Message, WireError>
    ensures { IsParsed result (replied lbfs xid program None reader.old) }
{
    match read_result(alloc, lbfs, program, reader) {
        Err(error) => Err(garbage(error)),
        Ok(body) => Ok(Message::Answer(xid, body)),
    }
}

/// Why a call was refused, if it was.
fn refusal(head: &ReplyHead) -> Option<RpcRefusal>
    ensures { result ≡ refusal_of head.now }
{
    match head {
        ReplyHead::Accepted(_, Accept::Success) => None,
        ReplyHead::Accepted(_, Accept::ProgUnavail) => Some(RpcRefusal::ProgUnavail),
        ReplyHead::Accepted(_, Accept::ProgMismatch(versions)) => Some(RpcRefusal::ProgMismatch {
            low: versions.low,
            high: versions.high,
        }),
        ReplyHead::Accepted(_, Accept::ProcUnavail) => Some(RpcRefusal::ProcUnavail),
        ReplyHead::Accepted(_, Accept::GarbageArgs) => Some(RpcRefusal::GarbageArgs),
        ReplyHead::Accepted(_, Accept::SystemErr) => Some(RpcRefusal::SystemErr),
        ReplyHead::Denied(Denial::RpcMismatch(versions)) => Some(RpcRefusal::RpcMismatch {
            low: versions.low,
            high: versions.high,
        }),
        ReplyHead::Denied(Denial::AuthError(why)) => Some(RpcRefusal::AuthError(*why)),
    }
}
