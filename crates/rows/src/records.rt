//! Whole records as messages.

use crate::bodies::of_number;
use crate::values::{Put, put_name};
use lb_base::items::Items;
use row_text::bytes::{put_same, read_bytes};
use row_text::out::Out;
use row_text::text::{first, letter, small, split};
use std::alloc::Global;
use wire::fault::WireError;
use wire::message::{Body, LBFS_SERVED, Message, Pending, RpcRefusal, Side, Waiting};
use wire::parse::parse;
use wire::spell::spell;

/// The calls that wait, as `XID=PROGRAM.NUMBER ..` says.
fn calls_of(alloc: Global, words: &str, out: &mut Out) -> Items<Pending> {
    let mut calls = Vec::new(alloc);
    for word in words.split_whitespace() {
        let (xid, rest) = split(word, '=');
        let (program, number) = split(rest, '.');
        if let Some(program) = of_number(program, small(number)) {
            let xid = small(xid);
            out.note(calls.extend_from_slice(&[Pending { xid, program }]));
        }
    }
    Items::from_vec(calls)
}

/// What a call or an answer has, behind its program and its procedure.
fn put_body(out: &mut Out, word: &str, xid: u32, body: &Body) {
    let program = body.program();
    let (number, procedure) = (program.number(), program.procedure());
    out.say(word, &[xid as u64, number as u64, procedure as u64]);
    match body {
        Body::Nfs(message) => message.put(out),
        Body::Lb(message) => message.put(out),
        Body::Back(message) => message.put(out),
    }
}

/// Why a call is refused: its name and the two numbers that it tells, 0 where it tells none.
fn told_by(why: RpcRefusal) -> (&'static str, u32, u32) {
    match why {
        RpcRefusal::ProgUnavail => (" ProgUnavail", 0, 0),
        RpcRefusal::ProgMismatch { low, high } => (" ProgMismatch", low, high),
        RpcRefusal::ProcUnavail => (" ProcUnavail", 0, 0),
        RpcRefusal::GarbageArgs => (" GarbageArgs", 0, 0),
        RpcRefusal::SystemErr => (" SystemErr", 0, 0),
        RpcRefusal::RpcMismatch { low, high } => (" RpcMismatch", low, high),
        RpcRefusal::AuthError(stat) => (" AuthError", stat, 0),
    }
}

/// Why a call is refused.
fn put_refusal(out: &mut Out, word: &str, xid: u32, why: RpcRefusal) {
    let (name, one, two) = told_by(why);
    out.say(word, &[xid as u64]);
    out.say(name, &[one as u64, two as u64])
}

fn put_message(out: &mut Out, message: &Message) {
    match message {
        Message::Call(xid, body) => put_body(out, " Call", *xid, body),
        Message::Answer(xid, body) => put_body(out, " Answer", *xid, body),
        Message::Refuse(xid, why) => put_refusal(out, " Refuse", *xid, *why),
        Message::Unfit(xid, why) => put_refusal(out, " Unfit", *xid, *why),
    }
}

/// What was read, and what is sent of it: the same, or other bytes.
fn put_read(alloc: Global, read: &Result<Message, WireError>, record: &[u8], out: &mut Out) {
    match read {
        Ok(message) => {
            put_message(out, message);
            match spell(alloc, message) {
                Ok(sent) => put_same(out, sent.as_slice(), record),
                Err(_) => out.lack(),
            }
        }
        Err(WireError::Fault(fault)) => put_name(out, fault),
        Err(WireError::Memory) => out.lack(),
    }
}

/// `SIDE XID=PROGRAM.NUMBER .. : BYTES`: the message that the record is where this side reads it and
/// these calls wait, and what is sent of it.
pub fn put(alloc: Global, row: &str, out: &mut Out) {
    let (front, bytes) = split(row, ':');
    let (side, calls) = first(front);
    let expected = Waiting {
        side: match letter(side) {
            b's' => Side::Server,
            b'c' => Side::Client,
            _ => Side::Either,
        },
        lbfs: LBFS_SERVED,
        calls: calls_of(alloc, calls, out),
    };
    let record = read_bytes(alloc, bytes, out);
    let read = parse(alloc, record.as_slice(), &expected);
    put_read(alloc, &read, record.as_slice(), out);
    drop(read)
}
