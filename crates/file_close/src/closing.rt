//! The operation that closes a file: its content is stored in a temporary file chunk by chunk, which
//! is then committed. `specs/Closing.antt` and `specs/Storing.antt` say how.

ghost use Rattle.std.specs.Prelude.{◌≡◌, ◌+◌, ◌<◌, ◌≤◌, length, None, Some, slice_get, IfOk, OnOk, OnErr, false, true};
ghost use Rattle.std.specs.List.{All};
ghost use Rattle.std.specs.Map.{values_of};
ghost use Rattle.client_state.specs.View.{state_of, whole_of, IsHeld, IsSound, IsThere, HasXids, IsLocalBounded, calls_after, store_left, IsStore};
ghost use Rattle.client_cache.specs.Cache.{reserved, without_note};
ghost use Rattle.file_close.specs.Closing.{store_of};
ghost use Rattle.client_state.specs.State.{local_at, local_bytes};
ghost use Rattle.client_state.specs.Ending.{on_local, may_ask, MayMissOn};
ghost use Rattle.file_close.specs.Storing.{closes, asks_temp, goes_if, goes_on, sends_whole, told_named, told_way, closed, MayMissNamed, MayMissWay};
ghost use Rattle.transfer_rules.specs.Answers.{wants_bytes};
ghost use Rattle.client_state.specs.declared.task.Stage.TheVariants as stage;

use crate::calls::Names;
use crate::{calls, messages, stores};
use chunk_cut::chunk::Chunk;
use client_state::parts;
use client_state::state::ClientState;
use client_state::step::{ClientStep, Outcome};
use client_state::task::{Stage, Upload, UploadCall, Way};
use cut_bytes::CutBytes;
use hash_calls::message::Lb;
use send_list::SendList;
use std::alloc::{AllocError, Global};
use transfer_rules::answers;
use transfer_rules::chunks::chunk_at;
use wire::message::Body;
use xdr_codec::answer::Answer;
use xdr_codec::handle::Handle;

/// A command to close a file. An `Err` changes nothing, and comes only where a call is sent.
pub fn close(alloc: Global, state: &mut ClientState, file: u64) -> Result<ClientStep, AllocError>
    requires { IsSound state.old }
    ensures ok { IfOk result (λ a. on_local (state_of state.old) state.old.task (local_at state.old.opened.entries file) (closes (state_of state.old) file) ≡ (state_of state.new, a)) }
    ensures done { IfOk result (λ a. a.missed ≡ false) }
    ensures err { OnErr result (state_of state.new ≡ state_of state.old) }
    ensures sure { OnErr result (MayMissOn state.old.task (local_at state.old.opened.entries file) (λ l. may_ask (state_of state.old) ≡ true)) }
    ensures sound { IsSound state.new }
{
    if state.is_busy() {
        return Ok(parts::ends(alloc, Outcome::Busy, 0, 0));
    }
    if !state.is_open(file) {
        return Ok(parts::ends(alloc, Outcome::NotOpen, 0, 0));
    }
    if !state.may_ask() {
        return Ok(parts::ends(alloc, Outcome::NoLink, 0, 0));
    }
    ask_temp(alloc, state, file)
}

/// A temporary file of the next number is asked for. An `Err` changes nothing.
#[tactic(auto, using(client_state::proofs::lemmas::Pending::held_of))]
fn ask_temp(alloc: Global, state: &mut ClientState, file: u64) -> Result<ClientStep, AllocError>
    requires sound { IsSound state.old }
    requires idle { state.old.task ≡ None }
    requires xids { state.old.next_xid < 4293967297 }
    ensures ok { IfOk result (λ a. asks_temp (state_of state.old) file true ≡ (state_of state.new, a)) }
    ensures done { IfOk result (λ a. a.missed ≡ false) }
    ensures err { OnErr result (state_of state.new ≡ state_of state.old) }
    ensures sound { IsSound state.new }
{
    let lbfs = state.lbfs();
    let xid = state.next_xid();
    let handle = Handle::of_file(alloc, file)?;
    let temp = state.wait_temp(alloc, file)?;
    let call = messages::make_call(lbfs, xid, temp, handle);
    Ok(parts::sends_one(alloc, call, 0))
}

/// COMMITTMP goes out with this xid, and what was noted of the file goes. An `Err` changes nothing.
fn wait_commit(
    alloc: Global,
    state: &mut ClientState,
    file: u64,
    xid: u32,
) -> Result<(), AllocError>
    requires held { IsHeld state.old }
    requires rises { state.old.next_xid ≤ xid }
    requires xid { xid + 1 < 4294967296 }
    ensures ok { OnOk result (state_of state.new
        ≡ record (state_of state.old) {
          next_xid = xid + 1;
          cache = without_note (reserved state.old.cache file) file;
          task = Some (record { file = file; stage = stage.Committing xid });
          sent = state.old.clock;
        }) }
    ensures err { OnErr result (whole_of state.new ≡ whole_of state.old) }
    ensures sound { OnOk result (IsSound state.new) }
    ensures held { OnErr result (IsHeld state.new) }
{
    state.wait_there(alloc, file, Stage::Committing(xid), xid + 1)?;
    state.drop_note(file);
    Ok(())
}

/// All chunks are stored: COMMITTMP goes out behind what goes out already, which are so many
/// CONDWRITEs, and what was noted of the file goes. An `Err` changes nothing.
fn ask_commit(
    alloc: Global,
    state: &mut ClientState,
    file: u64,
    names: Names,
    count: u64,
) -> Result<ClientStep, AllocError>
    requires held { IsHeld state.old }
    requires rises { state.old.next_xid ≤ names.next_xid }
    requires xid { names.next_xid + 1 < 4294967296 }
    requires count { count ≡ length names.send }
    ensures ok { IfOk result (λ a. goes_if (state_of state.old) file (local_bytes state.old.opened.entries file) names true ≡ (state_of state.new, a)) }
    ensures done { IfOk result (λ a. a.missed ≡ false) }
    ensures err { OnErr result (whole_of state.new ≡ whole_of state.old) }
    ensures sound { OnOk result (IsSound state.new) }
    ensures held { OnErr result (IsHeld state.new) }
{
    let Names {
        store,
        next_xid,
        mut send,
    } = names;
    let lbfs = state.lbfs();
    let temp = store.temp;
    drop(store);
    let size = state.local_bytes(file).len() as u64;
    calls::send_commit(alloc, lbfs, next_xid, temp, file, size, &mut send)?;
    wait_commit(alloc, state, file, next_xid)?;
    Ok(parts::sends(send, stores::names_counted(count)))
}

/// Sends CONDWRITEs and waits for their answers. An `Err` changes nothing.
fn wait_names(
    alloc: Global,
    state: &mut ClientState,
    file: u64,
    names: Names,
    count: u64,
) -> Result<ClientStep, AllocError>
    requires held { IsHeld state.old }
    requires rises { state.old.next_xid ≤ names.next_xid }
    requires within { IsStore names.store }
    requires xids { HasXids names.next_xid (stage.Storing names.store) }
    requires count { count ≡ length names.send }
    ensures ok { IfOk result (λ a. goes_if (state_of state.old) file (local_bytes state.old.opened.entries file) names false ≡ (state_of state.new, a)) }
    ensures done { IfOk result (λ a. a.missed ≡ false) }
    ensures err { OnErr result (whole_of state.new ≡ whole_of state.old) }
    ensures sound { OnOk result (IsSound state.new) }
    ensures held { OnErr result (IsHeld state.new) }
{
    let Names {
        store,
        next_xid,
        send,
    } = names;
    state.wait(alloc, file, Stage::Storing(store), next_xid)?;
    Ok(parts::sends(send, stores::names_counted(count)))
}

/// All CONDWRITEs that may be under way go out, or COMMITTMP where all chunks are stored. An `Err`
/// changes nothing.
fn go_on(
    alloc: Global,
    state: &mut ClientState,
    file: u64,
    store: Upload,
) -> Result<ClientStep, AllocError>
    requires held { IsHeld state.old }
    requires within { IsStore store }
    requires xids { HasXids state.old.next_xid (stage.Storing store) }
    ensures ok { IfOk result (λ a. goes_on (state_of state.old) file (local_bytes state.old.opened.entries file) store ≡ (state_of state.new, a)) }
    ensures done { IfOk result (λ a. a.missed ≡ false) }
    ensures err { OnErr result (whole_of state.new ≡ whole_of state.old) }
    ensures sound { OnOk result (IsSound state.new) }
    ensures held { OnErr result (IsHeld state.new) }
{
    let named = store.named;
    let names = calls::name_all(alloc, &*state, store)?;
    let count = (names.store.named - named) as u64;
    if calls::is_stored(&names.store) {
        ask_commit(alloc, state, file, names, count)
    } else {
        wait_names(alloc, state, file, names, count)
    }
}

/// The temporary file of this number is there, and no chunk of a file's local content in it.
fn store_local(
    alloc: Global,
    state: &ClientState,
    file: u64,
    temp: u32,
) -> Result<Upload, AllocError>
    requires { All IsLocalBounded (values_of state.now.opened.entries) }
    ensures store { IfOk result (λ st. st ≡ store_of temp (local_bytes state.now.opened.entries file)) }
    ensures within { IfOk result (λ st. IsStore st) }
{
    match state.local(file) {
        Some(local) => stores::store_of(alloc, temp, &local.bytes),
        None => stores::store_of(alloc, temp, &CutBytes::empty()),
    }
}

/// The temporary file is there: the chunks of the content go into it. An `Err` changes nothing.
pub fn store(
    alloc: Global,
    state: &mut ClientState,
    file: u64,
    temp: u32,
) -> Result<ClientStep, AllocError>
    requires held { IsHeld state.old }
    requires xids { HasXids state.old.next_xid (stage.Making 0 temp) }
    ensures ok { IfOk result (λ a. goes_on (state_of state.old) file
        (local_bytes state.old.opened.entries file)
        (store_of temp (local_bytes state.old.opened.entries file)) ≡ (state_of state.new, a)) }
    ensures done { IfOk result (λ a. a.missed ≡ false) }
    ensures err { OnErr result (whole_of state.new ≡ whole_of state.old) }
    ensures sound { OnOk result (IsSound state.new) }
    ensures held { OnErr result (IsHeld state.new) }
{
    let store = store_local(alloc, &*state, file, temp)?;
    go_on(alloc, state, file, store)
}

/// The bytes of a chunk go out in the place of its name. An `Err` changes nothing.
#[tactic(auto, using(crate::proofs::lemmas::Sending::by_send_whole))]
fn send_whole(
    alloc: Global,
    state: &mut ClientState,
    file: u64,
    store: Upload,
    call: UploadCall,
    chunk: &Chunk,
) -> Result<ClientStep, AllocError>
    requires held { IsHeld state.old }
    requires within { IsStore store }
    requires xids { state.old.next_xid + store_left store + 1 < 4294967296 }
    ensures ok { IfOk result (λ a. sends_whole (state_of state.old) file 0 (local_bytes state.old.opened.entries file) store call (Some chunk.now) ≡ (state_of state.new, a)) }
    ensures done { IfOk result (λ a. a.missed ≡ false) }
    ensures err { OnErr result (whole_of state.new ≡ whole_of state.old) }
    ensures sound { OnOk result (IsSound state.new) }
    ensures held { OnErr result (IsHeld state.new) }
{
    let lbfs = state.lbfs();
    let xid = state.next_xid();
    let temp = store.temp;
    let content = state.local_bytes(file);
    let bytes = stores::bytes_count(content, chunk);
    let store = stores::with_whole(store, call, xid)?;
    let whole = messages::temp_call(alloc, lbfs, xid, temp, content, chunk)?;
    state.wait(alloc, file, Stage::Storing(store), xid + 1)?;
    Ok(parts::sends(SendList::one(alloc, whole), stores::whole_counted(bytes)))
}

/// The answer to a CONDWRITE, which is no longer under way. An `Err` changes nothing.
fn told_named(
    alloc: Global,
    state: &mut ClientState,
    file: u64,
    store: Upload,
    call: UploadCall,
    xid: u32,
    answer: &Answer<(), ()>,
) -> Result<ClientStep, AllocError>
    requires held { IsHeld state.old }
    requires within { IsStore store }
    requires xids { state.old.next_xid + store_left store + 1 < 4294967296 }
    ensures ok { IfOk result (λ a. told_named (state_of state.old) state.old.waiting.calls file xid (local_bytes state.old.opened.entries file) store call answer.now ≡ (state_of state.new, a)) }
    ensures done { IfOk result (λ a. a.missed ≡ false) }
    ensures err { OnErr result (whole_of state.new ≡ whole_of state.old) }
    ensures sure { OnErr result (MayMissNamed answer.now (wants_bytes answer.now)) }
    ensures sound { OnOk result (IsSound state.new) }
    ensures held { OnErr result (IsHeld state.new) }
{
    if answers::wants_bytes(answer) {
        return match chunk_at(store.chunks.as_slice(), call.index) {
            Some(chunk) => send_whole(alloc, state, file, store, call, &chunk),
            None => Ok(state.unknown(alloc, xid)),
        };
    }
    match answer {
        Answer::Done(()) => go_on(alloc, state, file, store),
        Answer::Failed(status, _) => Ok(state.refused(alloc, xid, *status)),
    }
}

/// The answer to a call for a chunk, which is no longer under way. An `Err` changes nothing.
pub fn told_chunk(
    alloc: Global,
    state: &mut ClientState,
    file: u64,
    store: Upload,
    call: UploadCall,
    xid: u32,
    body: &Body,
) -> Result<ClientStep, AllocError>
    requires held { IsHeld state.old }
    requires within { IsStore store }
    requires xids { state.old.next_xid + store_left store + calls_after call.way < 4294967296 }
    ensures ok { IfOk result (λ a. told_way (state_of state.old) state.old.waiting.calls file xid (local_bytes state.old.opened.entries file) store call call.way body.now ≡ (state_of state.new, a)) }
    ensures done { IfOk result (λ a. a.missed ≡ false) }
    ensures err { OnErr result (whole_of state.new ≡ whole_of state.old) }
    ensures sure { OnErr result (MayMissWay call.way body.now) }
    ensures sound { OnOk result (IsSound state.new) }
    ensures held { OnErr result (IsHeld state.new) }
{
    match call.way {
        Way::Named => match body {
            Body::Lb(Lb::CondWriteAnswer(answer)) => {
                told_named(alloc, state, file, store, call, xid, answer)
            }
            _ => Ok(state.unknown(alloc, xid)),
        },
        Way::Whole => match body {
            Body::Lb(Lb::TmpWriteAnswer(answer)) => match answer {
                Answer::Done(_) => go_on(alloc, state, file, store),
                Answer::Failed(status, _) => Ok(state.refused(alloc, xid, *status)),
            },
            _ => Ok(state.unknown(alloc, xid)),
        },
    }
}

/// The file has its new content, which is kept, and is no longer open. It takes no memory.
pub fn closed(
    alloc: Global,
    state: &mut ClientState,
    file: u64,
    xid: u32,
    version: u64,
) -> ClientStep
    requires held { IsHeld state.old }
    requires there { IsThere state.old.cache file }
    ensures ok { closed (state_of state.old) state.old.waiting.calls file xid version (local_bytes state.old.opened.entries file) ≡ (state_of state.new, result) }
    ensures done { result.missed ≡ false }
    ensures sound { IsSound state.new }
{
    let content = state.take_local(file).hashed();
    let step = stores::closed(alloc, file, version, &content, xid);
    state.keep(file, version, content);
    state.forget(alloc, xid);
    step
}
