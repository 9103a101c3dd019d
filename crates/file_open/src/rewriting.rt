//! A file that is written anew: its version is asked for, and it is open then with nothing in it. What
//! the server has of it isn't fetched. `specs/Rewriting.antt` says how.

ghost use Rattle.std.specs.Prelude.{◌≡◌, ◌+◌, None, Some, IfOk, OnOk, OnErr, true, false};
ghost use Rattle.file_open.specs.Caching.{fresh_content};
ghost use Rattle.file_open.specs.Fetching.{MayMissOpen, MayMissKept};
ghost use Rattle.file_open.specs.Rewriting.{rewrites, renews_kept, empties_kept, reempties, asks_anew};
ghost use Rattle.client_state.specs.Ending.{forgets, may_ask};
ghost use Rattle.client_state.specs.View.{state_of, whole_of, IsHeld, IsSound, HasXids};
ghost use Rattle.client_state.specs.declared.task.Stage.TheVariants as stage;

use crate::{caching, messages};
use client_state::parts;
use client_state::state::ClientState;
use client_state::step::{ClientStep, Outcome};
use client_state::task::Stage;
use shared_bytes::SharedBytes;
use std::alloc::{AllocError, Global};
use xdr_codec::handle::Handle;

/// A command to write a file anew. Where its content is fresh nobody is asked. An `Err` changes nothing, and
/// comes only where the file is then open or asked for.
pub fn rewrite(alloc: Global, state: &mut ClientState, file: u64) -> Result<ClientStep, AllocError>
    requires { IsSound state.old }
    ensures ok { IfOk result (λ a. rewrites (state_of state.old) file state.old.task ≡ (state_of state.new, a)) }
    ensures done { IfOk result (λ a. a.missed ≡ false) }
    ensures err { OnErr result (state_of state.new ≡ state_of state.old) }
    ensures sure { OnErr result (MayMissOpen (state_of state.old) file state.old.task) }
    ensures sound { IsSound state.new }
{
    if state.is_busy() {
        return Ok(parts::ends(alloc, Outcome::Busy, 0, 0));
    }
    if state.is_open(file) {
        return Ok(parts::ends(alloc, Outcome::AlreadyOpen, 0, 0));
    }
    renew_kept(alloc, state, file)
}

/// A file that isn't open is opened at once with nothing in it, where its content is fresh, or is asked for
/// its version. An `Err` changes nothing.
fn renew_kept(alloc: Global, state: &mut ClientState, file: u64) -> Result<ClientStep, AllocError>
    requires sound { IsSound state.old }
    requires idle { state.old.task ≡ None }
    ensures ok { IfOk result (λ a. renews_kept (state_of state.old) file (fresh_content state.old.cache file state.old.clock) ≡ (state_of state.new, a)) }
    ensures done { IfOk result (λ a. a.missed ≡ false) }
    ensures err { OnErr result (state_of state.new ≡ state_of state.old) }
    ensures sure { OnErr result (MayMissKept (state_of state.old) (fresh_content state.old.cache file state.old.clock)) }
    ensures sound { IsSound state.new }
{
    match caching::fresh(&*state, file) {
        Some((version, _bytes)) => empty_fresh(alloc, state, file, version),
        None => ask_linked(alloc, state, file),
    }
}

/// The file's version is asked for, where a connection is joined. An `Err` changes nothing.
#[tactic(auto, using(crate::proofs::Keeping::by_ask_linked))]
fn ask_linked(alloc: Global, state: &mut ClientState, file: u64) -> Result<ClientStep, AllocError>
    requires sound { IsSound state.old }
    requires idle { state.old.task ≡ None }
    ensures ok { IfOk result (λ a. asks_anew (state_of state.old) file (may_ask (state_of state.old)) ≡ (state_of state.new, a)) }
    ensures done { IfOk result (λ a. a.missed ≡ false) }
    ensures err { OnErr result (state_of state.new ≡ state_of state.old) }
    ensures sure { OnErr result (may_ask (state_of state.old) ≡ true) }
    ensures sound { IsSound state.new }
{
    if !state.may_ask() {
        return Ok(parts::ends(alloc, Outcome::NoLink, 0, 0));
    }
    ask_anew(alloc, state, file)
}

/// A file that a path was found to stand for, by the answer with this xid, and which isn't open: as `renew_kept`
/// behind its look-ups. An `Err` changes nothing.
pub fn renew_found(
    alloc: Global,
    state: &mut ClientState,
    xid: u32,
    file: u64,
) -> Result<ClientStep, AllocError>
    requires held { IsHeld state.old }
    requires xids { HasXids (state.old.next_xid + 1) (stage.Rewriting 0) }
    ensures ok { IfOk result (λ a. empties_kept (state_of state.old) state.old.waiting.calls xid file (fresh_content state.old.cache file state.old.clock) ≡ (state_of state.new, a)) }
    ensures done { IfOk result (λ a. a.missed ≡ false) }
    ensures err { OnErr result (whole_of state.new ≡ whole_of state.old) }
    ensures sound { OnOk result (IsSound state.new) }
    ensures held { OnErr result (IsHeld state.new) }
{
    match caching::fresh(&*state, file) {
        Some((version, _bytes)) => open_empty(alloc, state, file, xid, version, 0),
        None => ask_anew(alloc, state, file),
    }
}

/// The file's content is fresh: it is open with nothing in it. An `Err` changes nothing.
#[tactic(auto, using(client_state::proofs::lemmas::Pending::sound_put))]
fn empty_fresh(
    alloc: Global,
    state: &mut ClientState,
    file: u64,
    version: u64,
) -> Result<ClientStep, AllocError>
    requires sound { IsSound state.old }
    requires idle { state.old.task ≡ None }
    ensures ok { IfOk result (λ a. reempties (state_of state.old) file version 0 ≡ (state_of state.new, a)) }
    ensures done { IfOk result (λ a. a.missed ≡ false) }
    ensures err { OnErr result (state_of state.new ≡ state_of state.old) }
    ensures sound { IsSound state.new }
{
    let nothing = SharedBytes::empty();
    state.put(file, version, nothing)?;
    Ok(parts::ends(alloc, Outcome::Done, 0, 0))
}

/// The file's version is asked for. An `Err` changes nothing.
fn ask_anew(alloc: Global, state: &mut ClientState, file: u64) -> Result<ClientStep, AllocError>
    requires held { IsHeld state.old }
    requires xids { HasXids (state.old.next_xid + 1) (stage.Rewriting 0) }
    ensures ok { IfOk result (λ a. asks_anew (state_of state.old) file true ≡ (state_of state.new, a)) }
    ensures done { IfOk result (λ a. a.missed ≡ false) }
    ensures err { OnErr result (whole_of state.new ≡ whole_of state.old) }
    ensures sound { OnOk result (IsSound state.new) }
    ensures held { OnErr result (IsHeld state.new) }
{
    let lbfs = state.lbfs();
    let xid = state.next_xid();
    let handle = Handle::of_file(alloc, file)?;
    state.wait_there(alloc, file, Stage::Rewriting(xid), xid + 1)?;
    let call = messages::lease_call(lbfs, xid, handle);
    Ok(parts::sends_one(alloc, call, 0))
}

/// By the answer with this xid the file's version is known: the file is open with nothing in it, and this is
/// what that rests on. An `Err` changes nothing.
pub fn open_empty(
    alloc: Global,
    state: &mut ClientState,
    file: u64,
    xid: u32,
    version: u64,
    rests_on: u32,
) -> Result<ClientStep, AllocError>
    requires held { IsHeld state.old }
    ensures ok { IfOk result (λ a. reempties (forgets (state_of state.old) state.old.waiting.calls xid) file version rests_on ≡ (state_of state.new, a)) }
    ensures done { IfOk result (λ a. a.missed ≡ false) }
    ensures err { OnErr result (whole_of state.new ≡ whole_of state.old) }
    ensures sound { OnOk result (IsSound state.new) }
    ensures held { OnErr result (IsHeld state.new) }
{
    state.put(file, version, SharedBytes::empty())?;
    state.forget(alloc, xid);
    Ok(parts::ends(alloc, Outcome::Done, rests_on, 0))
}
