//! One command, or one message: `does` and `hears` of `specs/Step.antt`.

ghost use Rattle.std.specs.Prelude.{◌≡◌, IfOk, OnOk, OnErr, false, Ok};
ghost use Rattle.file_open.specs.Looking.{with_file, reading_by, entering_by, entering};
ghost use Rattle.file_open.specs.Fetching.{Comes};
ghost use Rattle.client_state.specs.Ending.{forgets};
ghost use Rattle.open_close.specs.Step.{lease_in, takes, took, does, got_message, got_fault, hears, missed_at, MayMiss, MayMissCommand, InCommit, fault_of};
ghost use Rattle.client_state.specs.View.{state_of, whole_of, IsHeld, IsSound, HasXids, IsWithin, StageIsThere};
ghost use Rattle.wire.specs.declared.message.Message.TheVariants as message;

use crate::{answers, commands, granting, recalling, walking};
use client_state::noting::Granted;
use client_state::state::ClientState;
use client_state::step::{BadPeer, ClientStep};
use client_state::task::{Stage, Task};
use client_state::{parts, waiting};
use command_text::command::Command;
use file_close::closing;
use file_open::{opening, rewriting};
use std::alloc::{AllocError, Global};
use wire::fault::WireFault;
use wire::message::{Body, Message, RpcRefusal};

/// A command. An `Err` changes nothing, and comes only where memory is taken.
pub fn command(
    alloc: Global,
    state: &mut ClientState,
    command: Command,
) -> Result<ClientStep, AllocError>
    requires { IsSound state.old }
    ensures ok { IfOk result (λ a. does (state_of state.old) command ≡ (state_of state.new, a)) }
    ensures done { IfOk result (λ a. a.missed ≡ false) }
    ensures err { OnErr result (state_of state.new ≡ state_of state.old) }
    ensures sure { OnErr result (MayMissCommand (state_of state.old) command) }
    ensures sound { IsSound state.new }
{
    match command {
        Command::Open(file) => opening::open(alloc, state, file),
        Command::Rewrite(file) => rewriting::rewrite(alloc, state, file),
        Command::Write {
            file,
            offset,
            content,
        } => commands::write(alloc, state, file, offset, content),
        Command::Trunc { file, size } => commands::trunc(alloc, state, file, size),
        Command::Read {
            file,
            offset,
            count,
        } => Ok(commands::read_part(alloc, state, file, offset, count)),
        Command::Close(file) => closing::close(alloc, state, file),
        Command::Abandon(file) => Ok(commands::abandon(alloc, state, file)),
        Command::Named(command) => walking::walk(alloc, state, command),
    }
}

/// What is wrong with a record that is no message.
fn fault_of(fault: WireFault) -> BadPeer
    ensures { result ≡ fault_of fault }
{
    match fault {
        WireFault::NotRpc { at } | WireFault::Garbage { at } => {
            BadPeer::Garbage { at: at as u64 }
        }
        WireFault::UnknownXid { xid } => BadPeer::UnknownXid { xid },
    }
}

/// An answer to a call of this operation, which is taken out. An `Err` changes nothing, and doesn't
/// come once COMMITTMP was sent.
fn takes(
    alloc: Global,
    state: &mut ClientState,
    task: Task,
    xid: u32,
    body: &mut Body,
) -> Result<ClientStep, AllocError>
    requires held { IsHeld state.old }
    requires xids { HasXids state.old.next_xid task.stage }
    requires within { IsWithin task.stage }
    requires there { StageIsThere state.old.cache task.file task.stage }
    ensures ok { IfOk result (λ a. Comes state.old.index
        (entering_by (state_of state.old)
        (with_file task.file (reading_by task.stage xid body.old)))
        (takes (state_of state.old) state.old.waiting.calls task.file task.stage xid body.old)
        (state_of state.new) a) }
    ensures err { OnErr result (whole_of state.new ≡ whole_of state.old) }
    ensures calm { OnErr result (InCommit task.stage → ⊥) }
    ensures sound { OnOk result (IsSound state.new) }
    ensures held { OnErr result (IsHeld state.new) }
{
    let Task { file, stage } = task;
    match stage {
        Stage::Asking(_) => answers::took_lease(alloc, state, file, xid, body),
        Stage::Rewriting(_) => answers::took_version(alloc, state, file, xid, body),
        Stage::Hashing { tries, xid: _ } => answers::took_first(
            alloc, state, file, tries, xid, body,
        ),
        Stage::Listing { xid: _, fetch } => answers::took_piece(
            alloc, state, file, fetch, xid, body,
        ),
        Stage::Reading(fetch) => answers::took_bytes(alloc, state, file, fetch, xid, body),
        Stage::Making { xid: _, temp } => answers::took_temp(alloc, state, file, temp, xid, body),
        Stage::Storing(store) => answers::took_stored(alloc, state, file, store, xid, body),
        Stage::Committing(_) => Ok(answers::took_commit(alloc, state, file, xid, body)),
        Stage::Walking { xid: _, walk } => walking::took_walk(alloc, state, file, walk, xid, body),
    }
}

/// The lease that an answer grants beside what it tells.
fn lease_in(stage: &Stage, body: &Body) -> Option<Granted>
    ensures { result ≡ lease_in stage.now body.now }
{
    match stage {
        Stage::Asking(_) | Stage::Rewriting(_) => granting::by_lease(body),
        Stage::Hashing { .. } | Stage::Listing { .. } => granting::by_hashes(body),
        Stage::Committing(_) => granting::by_commit(body),
        _ => None,
    }
}

/// An answer to a call of the operation under way, and the lease that it grants is noted. An `Err` ends that,
/// and doesn't come once COMMITTMP was sent.
fn take_own(
    alloc: Global,
    state: &mut ClientState,
    task: Task,
    xid: u32,
    mut body: Body,
) -> Result<ClientStep, AllocError>
    requires held { IsHeld state.old }
    requires xids { HasXids state.old.next_xid task.stage }
    requires within { IsWithin task.stage }
    requires there { StageIsThere state.old.cache task.file task.stage }
    ensures ok { IfOk result (λ a. Comes state.old.index
        (entering_by (state_of state.old)
        (with_file task.file (reading_by task.stage xid body)))
        (took (state_of state.old) state.old.waiting.calls task.file task.stage xid body)
        (state_of state.new) a) }
    ensures err { OnErr result (state_of state.new ≡ forgets (state_of state.old) state.old.waiting.calls xid) }
    ensures calm { OnErr result (InCommit task.stage → ⊥) }
    ensures sound { IsSound state.new }
{
    let sent = state.sent();
    let file = task.file;
    let granted = lease_in(&task.stage, &body);
    match takes(alloc, state, task, xid, &mut body) {
        Ok(step) => {
            drop(body);
            state.note(sent, file, granted);
            Ok(step)
        }
        Err(error) => {
            drop(body);
            state.forget(alloc, xid);
            Err(error)
        }
    }
}

/// An answer. An `Err` ends the operation under way, whose call this answers, and doesn't come once
/// COMMITTMP was sent.
fn answered(
    alloc: Global,
    state: &mut ClientState,
    xid: u32,
    body: Body,
) -> Result<ClientStep, AllocError>
    requires { IsSound state.old }
    ensures ok { IfOk result (λ a. Comes state.old.index
        (entering (state_of state.old) (Ok (message.Answer xid body)))
        (got_message (state_of state.old) state.old.task (message.Answer xid body))
        (state_of state.new) a) }
    ensures err { OnErr result (state_of state.new ≡ missed_at (state_of state.old) (Ok (message.Answer xid body))) }
    ensures sure { OnErr result (MayMiss (state_of state.old) (Ok (message.Answer xid body))) }
    ensures sound { IsSound state.new }
{
    if !waiting::has_call(state.own_calls(), xid) {
        drop(body);
        return Ok(state.take_other(alloc, xid));
    }
    match state.take_task() {
        Some(task) => take_own(alloc, state, task, xid, body),
        None => {
            drop(body);
            Ok(state.take_other(alloc, xid))
        }
    }
}

/// An answer that refuses a call.
fn was_refused(alloc: Global, state: &mut ClientState, xid: u32, refusal: RpcRefusal) -> ClientStep
    requires { IsSound state.old }
    ensures ok { got_message (state_of state.old) state.old.task (message.Refuse xid refusal) ≡ (state_of state.new, result) }
    ensures done { result.missed ≡ false }
    ensures sound { IsSound state.new }
{
    if !waiting::has_call(state.own_calls(), xid) {
        return state.take_other(alloc, xid);
    }
    if state.is_busy() {
        state.denied(alloc, xid, refusal)
    } else {
        state.take_other(alloc, xid)
    }
}

/// A record that is no message.
fn got_fault(alloc: Global, state: &mut ClientState, fault: WireFault) -> ClientStep
    requires { IsSound state.old }
    ensures ok { got_fault (state_of state.old) state.old.task fault ≡ (state_of state.new, result) }
    ensures done { result.missed ≡ false }
    ensures sound { IsSound state.new }
{
    if state.is_busy() {
        state.bad_peer(alloc, fault_of(fault), 0)
    } else {
        state.cut_off(alloc)
    }
}

/// A message. An `Err` ends the operation under way, whose call the message answers, and doesn't
/// come once COMMITTMP was sent.
fn got_message(
    alloc: Global,
    state: &mut ClientState,
    message: Message,
) -> Result<ClientStep, AllocError>
    requires { IsSound state.old }
    ensures ok { IfOk result (λ a. Comes state.old.index (entering (state_of state.old) (Ok message)) (got_message (state_of state.old) state.old.task message) (state_of state.new) a) }
    ensures err { OnErr result (state_of state.new ≡ missed_at (state_of state.old) (Ok message)) }
    ensures sure { OnErr result (MayMiss (state_of state.old) (Ok message)) }
    ensures sound { IsSound state.new }
{
    match message {
        Message::Answer(xid, body) => answered(alloc, state, xid, body),
        Message::Refuse(xid, refusal) => Ok(was_refused(alloc, state, xid, refusal)),
        Message::Unfit(xid, refusal) => {
            let refuse = Message::Refuse(xid, refusal);
            Ok(parts::sends_one(alloc, refuse, 0))
        }
        Message::Call(xid, body) => {
            let step = recalling::called(alloc, state, xid, &body);
            drop(body);
            Ok(step)
        }
    }
}

/// What comes from the other end. An `Err` ends the operation under way, whose call it answers, and
/// doesn't come once COMMITTMP was sent.
pub fn got(
    alloc: Global,
    state: &mut ClientState,
    message: Result<Message, WireFault>,
) -> Result<ClientStep, AllocError>
    requires { IsSound state.old }
    ensures ok { IfOk result (λ a. Comes state.old.index (entering (state_of state.old) message) (hears (state_of state.old) message) (state_of state.new) a) }
    ensures err { OnErr result (state_of state.new ≡ missed_at (state_of state.old) message) }
    ensures sure { OnErr result (MayMiss (state_of state.old) message) }
    ensures sound { IsSound state.new }
{
    match message {
        Ok(message) => got_message(alloc, state, message),
        Err(fault) => Ok(got_fault(alloc, state, fault)),
    }
}
