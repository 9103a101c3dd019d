//! A command on names: its calls go out one after the other, and an answer leads to the next one, to a
//! file that is opened, or to its end. `specs/Walking.antt` says how.

ghost use Rattle.std.specs.Prelude.{◌≡◌, ◌+◌, Some, IfOk, OnOk, OnErr, false};
ghost use Rattle.client_state.specs.Ending.{is_open};
ghost use Rattle.client_state.specs.View.{state_of, whole_of, IsHeld, IsSound, HasXids};
ghost use Rattle.client_state.specs.declared.task.Stage.TheVariants as stage;
ghost use Rattle.open_close.specs.Step.{takes};
ghost use Rattle.open_close.specs.Walking.{asks_next, walks, finds_if, renews_if, outcome_of, is_look, seen_in, walked, HasXidsFor, MayMissWalk};
ghost use Rattle.path_calls.specs.declared.answers.Told.TheVariants as told;

use client_state::parts;
use client_state::state::ClientState;
use client_state::step::{BadPeer, ClientStep, Outcome};
use client_state::task::Stage;
use command_text::path::PathCommand;
use file_open::{opening, rewriting};
use path_calls::answers::{Ended, Told};
use path_calls::walk::{Goal, Walk};
use std::alloc::{AllocError, Global};
use wire::message::{Body, Message};

/// The next call of a walk goes out. An `Err` changes nothing.
fn ask_next(alloc: Global, state: &mut ClientState, walk: Walk) -> Result<ClientStep, AllocError>
    requires held { IsHeld state.old }
    requires xids { HasXids (state.old.next_xid + 1) (stage.Walking 0 walk) }
    ensures ok { IfOk result (λ a. asks_next (state_of state.old) walk ≡ (state_of state.new, a)) }
    ensures done { IfOk result (λ a. a.missed ≡ false) }
    ensures err { OnErr result (whole_of state.new ≡ whole_of state.old) }
    ensures sound { OnOk result (IsSound state.new) }
    ensures held { OnErr result (IsHeld state.new) }
{
    let xid = state.next_xid();
    let call = walk.next_call(alloc)?;
    state.wait(alloc, 0, Stage::Walking { xid, walk }, xid + 1)?;
    Ok(parts::sends_one(alloc, Message::Call(xid, Body::Nfs(call)), 0))
}

/// A command on names. An `Err` changes nothing, and comes only where a call is sent.
#[tactic(auto, using(client_state::proofs::lemmas::Pending::held_of))]
pub fn walk(
    alloc: Global,
    state: &mut ClientState,
    command: PathCommand,
) -> Result<ClientStep, AllocError>
    requires { IsSound state.old }
    ensures ok { IfOk result (λ a. walks (state_of state.old) command state.old.task ≡ (state_of state.new, a)) }
    ensures done { IfOk result (λ a. a.missed ≡ false) }
    ensures err { OnErr result (state_of state.new ≡ state_of state.old) }
    ensures sure { OnErr result (MayMissWalk (state_of state.old) command state.old.task) }
    ensures sound { IsSound state.new }
{
    if state.is_busy() {
        drop(command);
        return Ok(parts::ends(alloc, Outcome::Busy, 0, 0));
    }
    let walk = Walk::new(alloc, command);
    if !state.may_walk(&walk) {
        drop(walk);
        return Ok(parts::ends(alloc, Outcome::NoLink, 0, 0));
    }
    ask_next(alloc, state, walk)
}

/// A step in which a path was found to stand for this id. It takes no memory.
fn finding(id: u64, mut step: ClientStep) -> ClientStep
    ensures { result ≡ record step { found = Some id } }
{
    step.found = Some(id);
    step
}

/// The name that was to be opened stands for this id. An `Err` changes nothing.
fn found(
    alloc: Global,
    state: &mut ClientState,
    xid: u32,
    id: u64,
) -> Result<ClientStep, AllocError>
    requires held { IsHeld state.old }
    requires xids { HasXids (state.old.next_xid + 1) (stage.Asking 0) }
    ensures ok { IfOk result (λ a. finds_if (state_of state.old) state.old.waiting.calls xid id (is_open state.old.opened.entries id) ≡ (state_of state.new, a)) }
    ensures done { IfOk result (λ a. a.missed ≡ false) }
    ensures err { OnErr result (whole_of state.new ≡ whole_of state.old) }
    ensures sound { OnOk result (IsSound state.new) }
    ensures held { OnErr result (IsHeld state.new) }
{
    if state.is_open(id) {
        state.forget(alloc, xid);
        return Ok(finding(id, parts::ends(alloc, Outcome::AlreadyOpen, 0, 0)));
    }
    let step = opening::open_found(alloc, state, xid, id)?;
    Ok(finding(id, step))
}

/// The name whose file is to be written anew stands for this id. An `Err` changes nothing.
fn renewed(
    alloc: Global,
    state: &mut ClientState,
    xid: u32,
    id: u64,
) -> Result<ClientStep, AllocError>
    requires held { IsHeld state.old }
    requires xids { HasXids (state.old.next_xid + 1) (stage.Rewriting 0) }
    ensures ok { IfOk result (λ a. renews_if (state_of state.old) state.old.waiting.calls xid id (is_open state.old.opened.entries id) ≡ (state_of state.new, a)) }
    ensures done { IfOk result (λ a. a.missed ≡ false) }
    ensures err { OnErr result (whole_of state.new ≡ whole_of state.old) }
    ensures sound { OnOk result (IsSound state.new) }
    ensures held { OnErr result (IsHeld state.new) }
{
    if state.is_open(id) {
        state.forget(alloc, xid);
        return Ok(finding(id, parts::ends(alloc, Outcome::AlreadyOpen, 0, 0)));
    }
    let step = rewriting::renew_found(alloc, state, xid, id)?;
    Ok(finding(id, step))
}

/// Whether a name is looked at.
fn is_look(goal: &Goal) -> bool
    ensures { result ≡ is_look goal.now }
{
    match goal {
        Goal::Look(_) => true,
        _ => false,
    }
}

/// What the name stands for that was looked at.
fn seen_in(looks: bool, ended: &Ended) -> Option<u64>
    ensures { result ≡ seen_in looks ended.now }
{
    match ended {
        Ended::Seen { id, .. } => { if looks { Some(*id) } else { None } }
        _ => None,
    }
}

/// What a walk's end tells.
fn outcome_of(ended: Ended) -> Outcome
    ensures { result ≡ outcome_of ended }
{
    match ended {
        Ended::Done => Outcome::Done,
        Ended::Names(names) => Outcome::Names(names),
        Ended::Seen {
            id,
            kind,
            version,
            len,
        } => Outcome::Seen {
            id,
            kind,
            version,
            len,
        },
        Ended::Refused(status) => Outcome::Refused(status),
        Ended::NoLink => Outcome::NoLink,
    }
}

/// The walk has ended, by the answer with this xid. It takes no memory.
fn ends(alloc: Global, state: &mut ClientState, xid: u32, looks: bool, ended: Ended) -> ClientStep
    requires held { IsHeld state.old }
    ensures ok { walked (state_of state.old) state.old.waiting.calls xid looks (told.Ends ended) ≡ (state_of state.new, result) }
    ensures done { result.missed ≡ false }
    ensures sound { IsSound state.new }
{
    let found = seen_in(looks, &ended);
    state.forget(alloc, xid);
    let mut step = parts::ends(alloc, outcome_of(ended), xid, 0);
    step.found = found;
    step
}

/// What comes of an answer. An `Err` changes nothing.
fn walked(
    alloc: Global,
    state: &mut ClientState,
    xid: u32,
    looks: bool,
    told: Told,
) -> Result<ClientStep, AllocError>
    requires held { IsHeld state.old }
    requires xids { HasXidsFor state.old.next_xid told }
    ensures ok { IfOk result (λ a. walked (state_of state.old) state.old.waiting.calls xid looks told ≡ (state_of state.new, a)) }
    ensures done { IfOk result (λ a. a.missed ≡ false) }
    ensures err { OnErr result (whole_of state.new ≡ whole_of state.old) }
    ensures sound { OnOk result (IsSound state.new) }
    ensures held { OnErr result (IsHeld state.new) }
{
    match told {
        Told::Asks(walk) => ask_next(alloc, state, walk),
        Told::Finds(id) => found(alloc, state, xid, id),
        Told::Rewrites(id) => renewed(alloc, state, xid, id),
        Told::Ends(ended) => Ok(ends(alloc, state, xid, looks, ended)),
        Told::Shape { got, wanted } => {
            Ok(state.bad_peer(alloc, BadPeer::Shape { got, wanted }, 0))
        }
        Told::Other => Ok(state.unknown(alloc, xid)),
    }
}

/// An answer while a walk's call is under way: to that call, or to another procedure. An `Err` changes
/// nothing.
#[tactic(auto, using(crate::proofs::Walks::told_xids))]
pub fn took_walk(
    alloc: Global,
    state: &mut ClientState,
    _file: u64,
    walk: Walk,
    xid: u32,
    body: &Body,
) -> Result<ClientStep, AllocError>
    requires held { IsHeld state.old }
    requires xids { HasXids state.old.next_xid (stage.Walking 0 walk) }
    ensures ok { IfOk result (λ a. takes (state_of state.old) state.old.waiting.calls _file (stage.Walking 0 walk) xid body.now ≡ (state_of state.new, a)) }
    ensures done { IfOk result (λ a. a.missed ≡ false) }
    ensures err { OnErr result (whole_of state.new ≡ whole_of state.old) }
    ensures sound { OnOk result (IsSound state.new) }
    ensures held { OnErr result (IsHeld state.new) }
{
    match body {
        Body::Nfs(answer) => {
            if answer.procedure().number() != walk.procedure().number() {
                drop(walk);
                return Ok(state.unknown(alloc, xid));
            }
            let looks = is_look(&walk.goal);
            let told = walk.told(alloc, answer)?;
            walked(alloc, state, xid, looks, told)
        }
        _ => {
            drop(walk);
            Ok(state.unknown(alloc, xid))
        }
    }
}
