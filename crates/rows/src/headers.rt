//! Headers of calls and replies.

use crate::values::put_name;
use row_text::bytes::{put_bytes, put_same, read_bytes};
use row_text::out::Out;
use row_text::text::{first, letter};
use rpc_record::header::{Accept, Auth, Denial, ReplyHead};
use rpc_record::messages::{Call, Reply};
use rpc_record::refusal::HeaderError;
use std::alloc::Global;
use xdr_codec::reader::Reader;
use xdr_codec::writer::Writer;

/// Why a header was not read, and where the reader then stands.
fn put_error(out: &mut Out, error: &HeaderError, at: usize) {
    match error {
        HeaderError::Memory => out.lack(),
        HeaderError::Xdr(fault) => put_name(out, fault),
        HeaderError::BadType { value } => out.say(" BadType", &[*value as u64]),
    }
    out.say(" at", &[at as u64])
}

fn put_auth(out: &mut Out, auth: &Auth) {
    out.number(auth.flavor as u64);
    put_bytes(out, auth.body.as_slice())
}

/// The header of a call at the front of the bytes, and whether it is written so.
fn put_call(alloc: Global, bytes: &[u8], out: &mut Out) {
    let mut reader = Reader::new(bytes);
    match Call::read(alloc, &mut reader) {
        Ok(call) => {
            let head = &call.head;
            out.numbers(&[
                call.xid as u64,
                call.rpcvers as u64,
                head.program as u64,
                head.version as u64,
                head.procedure as u64,
            ]);
            put_auth(out, &head.cred);
            put_auth(out, &head.verf);
            let mut writer = Writer::new(alloc);
            out.note(call.write(&mut writer));
            put_same(out, writer.done().as_slice(), bytes)
        }
        Err(error) => put_error(out, &error, reader.at()),
    }
}

/// What became of a call; of one that was accepted its verifier, and what is told of it.
fn put_head(out: &mut Out, head: &ReplyHead) {
    match head {
        ReplyHead::Accepted(verf, accept) => {
            out.number(0);
            put_auth(out, verf);
            match accept {
                Accept::ProgMismatch(versions) => {
                    out.numbers(&[2, versions.low as u64, versions.high as u64])
                }
                _ => out.text(" another"),
            }
        }
        ReplyHead::Denied(Denial::AuthError(why)) => out.numbers(&[1, 1, *why as u64]),
        ReplyHead::Denied(Denial::RpcMismatch(versions)) => {
            out.numbers(&[1, 0, versions.low as u64, versions.high as u64])
        }
    }
}

/// The same of a reply.
fn put_reply(alloc: Global, bytes: &[u8], out: &mut Out) {
    let mut reader = Reader::new(bytes);
    match Reply::read(alloc, &mut reader) {
        Ok(reply) => {
            out.number(reply.xid as u64);
            put_head(out, &reply.head);
            let mut writer = Writer::new(alloc);
            out.note(reply.write(&mut writer));
            put_same(out, writer.done().as_slice(), bytes)
        }
        Err(error) => put_error(out, &error, reader.at()),
    }
}

/// `call BYTES`, `reply BYTES`: the header at the front of the bytes, and whether it is written so.
pub fn put(alloc: Global, row: &str, out: &mut Out) {
    let (word, bytes) = first(row);
    let bytes = read_bytes(alloc, bytes, out);
    if letter(word) == b'c' {
        put_call(alloc, bytes.as_slice(), out)
    } else {
        put_reply(alloc, bytes.as_slice(), out)
    }
}
