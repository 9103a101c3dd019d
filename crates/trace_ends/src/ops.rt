//! The operations of a history, as the steps of their clients make them. `specs/Ops.antt` says what
//! becomes of them.

ghost use Rattle.std.specs.Prelude.{◌≡◌, IfOk, OnOk};
ghost use Rattle.trace_ends.specs.Ops.{ops_with, has_point, taken_at, point_if, value_of, counted, ended_op, file_with, op_after, begun};

use crate::commands::local_bytes;
use client_state::step;
use client_state::step::{ClientStep, Ended};
use open_close::client::Client;
use register_model::op::{Op, Outcome, Traffic, Word};
use session_rules::taken_call::TakenCall;
use session_rules::telling::tell;
use shared_bytes::SharedBytes;
use std::alloc::{AllocError, Global};
use told_outcome::told_of;
use transfer_rules::counts::{Counts, with_share};
use xdr_codec::status::Status;

/// Whether an open that ended so read or missed its file at one moment.
fn has_point(word: Word, outcome: &step::Outcome) -> bool
    ensures { result ≡ has_point word outcome.now }
{
    match word {
        Word::Open => matches!(
            outcome,
            step::Outcome::Opened { .. } | step::Outcome::Refused(Status::Stale)
        ),
        _ => false,
    }
}

/// The step at which the call was taken that an outcome rests on.
fn taken_at(taken: &[TakenCall], xid: u32) -> Option<u64>
    ensures { result ≡ taken_at taken.now xid }
{
    for call in taken {
        if call.xid == xid {
            return Some(call.step);
        }
    }
    None
}

/// The point that an operation has by its end, in this step, which it is where its outcome rests on
/// no call; that of a change is the step at which it was made.
fn point_of(
    word: Word,
    point: Option<u64>,
    ended: &Ended,
    taken: &[TakenCall],
    step: u64,
) -> Option<u64>
    ensures { result ≡ point_if (has_point word ended.now.outcome) taken.now ended.now.rests_on step point }
{
    if has_point(word, &ended.outcome) {
        Some(taken_at(taken, ended.rests_on).unwrap_or(step))
    } else {
        point
    }
}

/// Puts the content that an open got in its place. A close has its value from its begin.
fn put_value(
    value: &mut SharedBytes,
    client: &Client,
    outcome: &step::Outcome,
) -> Result<(), AllocError>
    ensures { OnOk result (value.new ≡ value_of value.old client.now outcome.now) }
{
    match outcome {
        step::Outcome::Opened { file, .. } => {
            *value = local_bytes(client, *file)?;
            Ok(())
        }
        _ => Ok(()),
    }
}

/// What was sent and received, with a step's share. No run comes to 2^64 bytes, so there it is
/// running out of memory.
fn counted(traffic: Traffic, counts: Counts) -> Result<Traffic, AllocError>
    ensures { IfOk result (λ t. t ≡ counted traffic counts) }
{
    let before = Counts {
        cond_writes: traffic.cond,
        temp_writes: traffic.tmp,
        reads: traffic.read,
        bytes: traffic.data,
    };
    let all = with_share(before, counts).ok_or(AllocError)?;
    Ok(Traffic {
        cond: all.cond_writes,
        tmp: all.temp_writes,
        read: all.reads,
        data: all.bytes,
    })
}

/// An operation that begins.
pub fn begun(client: u32, word: Word, file: u64, value: SharedBytes, step: u64) -> Op
    ensures { result ≡ begun client word file value step }
{
    Op {
        client,
        word,
        file,
        begin: step,
        end: None,
        point: None,
        outcome: Outcome::Running,
        value,
        traffic: Traffic {
            cond: 0,
            tmp: 0,
            read: 0,
            data: 0,
        },
    }
}

/// An operation ends.
fn end(
    alloc: Global,
    op: &mut Op,
    client: &Client,
    taken: &[TakenCall],
    step: u64,
    ended: &Ended,
) -> Result<(), AllocError>
    ensures { OnOk result (op.new ≡ ended_op op.old client.now taken.now step ended.now) }
{
    let told = told_of(alloc, &ended.outcome)?;
    tell(&mut op.outcome, told);
    put_value(&mut op.value, client, &ended.outcome)?;
    op.end = Some(step);
    op.point = point_of(op.word, op.point, ended, taken, step);
    Ok(())
}

/// The file of an operation whose path was found to stand for this, if it was found in a step.
fn file_with(file: u64, found: Option<u64>) -> u64
    ensures { result ≡ file_with file found }
{
    match found {
        None => file,
        Some(id) => id,
    }
}

/// What becomes of an operation in a step of its client.
pub fn note(
    alloc: Global,
    op: &mut Op,
    client: &Client,
    taken: &[TakenCall],
    step: u64,
    acts: &ClientStep,
) -> Result<(), AllocError>
    ensures { OnOk result (op.new ≡ op_after op.old client.now taken.now step acts.now) }
{
    op.file = file_with(op.file, acts.found);
    op.traffic = counted(op.traffic, acts.counts)?;
    match &acts.ended {
        None => Ok(()),
        Some(ended) => end(alloc, op, client, taken, step, ended),
    }
}

/// What becomes of the operations in a step of a client, whose own under way is at this place.
pub fn note_with(
    alloc: Global,
    ops: &mut Vec<Op>,
    place: Option<usize>,
    client: &Client,
    taken: &[TakenCall],
    step: u64,
    acts: &ClientStep,
) -> Result<(), AllocError>
    ensures { OnOk result (ops.new.items ≡ ops_with ops.old.items place client.now taken.now step acts.now) }
{
    let Some(place) = place else {
        return Ok(());
    };
    if ops.len() <= place {
        return Ok(());
    }
    note(alloc, &mut ops[place], client, taken, step, acts)
}
